// Checking a memory that somebody else told: does the first claim hold of it, and the second not?
use crate::cells::{Cell, Cells};
use crate::dealing::holds;
use crate::parts::Question;

// The cells that the words begin with, two words each.
fn told_cells(words: &[u32], count: usize) -> Option<Cells> {
    let (pairs, _) = words.as_chunks::<2>();
    let mut cells = Cells::new();
    for &[place, leads] in pairs.get(..count)? {
        cells.put(Cell { place, leads }).ok()?;
    }
    Some(cells)
}

// Do the told words, one for each name and two for each of so many cells, show that the second claim doesn't follow?
// There may be at most two cells for each of the first claim's cells and rows.
pub fn refutes(question: &Question, told: &[u32], count: usize) -> bool {
    count <= question.first.atoms.len().saturating_mul(2)
        && told
            .get(question.names as usize..)
            .and_then(|words| told_cells(words, count))
            .is_some_and(|cells| {
                holds(&question.first, told, &cells) && !holds(&question.second, told, &cells)
            })
}
