// The checking call: does a claim hold of names and a memory, all given as words?
//
// The claim's words are how many names there are and then the claim's own, with nothing after. There is a word
// for each name, the place that it stands for, and two for each cell, its place and where it leads, in any order.
ghost use Rattle.std.specs.Prelude.{◌≡◌, ◌/◌, ◌≤◌, length, take};
ghost use Rattle.claims.specs.Decoding.{decoded_claim};
ghost use Rattle.memory.specs.Checking.{WholeClaim, CheckedPost};
ghost use Rattle.memory.specs.Judging.{Judged};
ghost use Rattle.memory.specs.Marks.{memory_of};

use crate::cells::SoundMemory;
use crate::deals::{Why, holds};
use claims::layouts::MOST_NAMES;
use claims::{Decoded, decode};

// The marks of more cells than this are not kept.
pub const MOST_CELLS: usize = 16384;

// Why `check` can't tell. Where several of them fit, it is the last of those.
#[derive(Clone, Copy, Debug, PartialEq, Eq)]
pub enum Refusal {
    // The words of the memory are no sound memory, or there is not just one word for each name.
    NoMemory,
    // The words of the claim are no claim.
    NoClaim,
    // There are more than `MOST_CELLS` cells.
    TooLarge,
    // Fewer words are lent than there are cells.
    Few,
}

// How many names there are, and the claim that the words are, with nothing after.
fn whole_claim(words: &[u32]) -> Option<(u8, Decoded)>
    ensures { WholeClaim words.now result }
{
    let (count, claim) = words.split_first()?;
    if *count < 1 || *count > MOST_NAMES {
        return None;
    }
    let names = *count as u8;
    let decoded = decode(claim, names)?;
    if claim.len() != decoded.shape.len() {
        return None;
    }
    Some((names, decoded))
}

// A copy of the words, in front.
fn copied(words: &[u32]) -> [u32; MOST_CELLS]
    requires { length words.now ≤ 16384 }
    ensures { take (length words.now) result ≡ words.now }
{
    let mut copy = [0; MOST_CELLS];
    copy[0..words.len()].copy_from_slice(words);
    copy
}

// Does the claim hold? The marks are lent, and hold what they held when this is done: with no heap here, they are
// put back from an array.
fn judge(claim: &Decoded, names: &[u32], memory: SoundMemory, marks: &mut [u32]) -> Result<(), Why>
    requires room { length marks.old ≡ length memory.words.now / 2 }
    requires few { length memory.words.now / 2 ≤ 16384 }
    ensures judged { Judged names.now (memory_of memory.entry.words.now) (decoded_claim claim.now) result }
    ensures unchanged { marks.new ≡ marks.old }
{
    let saved = copied(marks);
    let answer = holds(claim.pures(), claim.atoms(), names, memory, marks);
    marks.copy_from_slice(&saved[0..marks.len()]);
    answer
}

// Does the claim hold of the names and the memory, and if not, why not? The words to work with are lent, one for
// each cell, and hold what they held when this is done.
pub fn check(
    claim: &[u32],
    names: &[u32],
    memory: &[u32],
    work: &mut [u32],
) -> Result<Result<(), Why>, Refusal>
    ensures { CheckedPost claim.now names.now memory.now work.old work.new result }
{
    let cells = memory.len() / 2;
    if work.len() < cells {
        return Err(Refusal::Few);
    }
    if cells > MOST_CELLS {
        return Err(Refusal::TooLarge);
    }
    let (count, claim) = whole_claim(claim).ok_or(Refusal::NoClaim)?;
    if names.len() != usize::from(count) || memory.len() % 2 != 0 {
        return Err(Refusal::NoMemory);
    }
    let memory = SoundMemory::of(memory).ok_or(Refusal::NoMemory)?;
    let mid = work.len() - cells;
    Ok(judge(&claim, names, memory, &mut work[mid..]))
}
