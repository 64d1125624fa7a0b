// Is a memory sound: are its cells at different places, and none nowhere?
//
// A memory is words, two for each cell: its place and where it leads. A last word that is alone is no cell.
ghost use Rattle.std.specs.Prelude.{◌≡◌, ◌↔◌, ◌==◌, ◌/◌, ◌<◌, T, IfSome, IsSome, length, position, slice_index};
ghost use Rattle.claims.specs.Memory.{sound};
ghost use Rattle.memory.specs.Marks.{memory_of};

use claims::Place;

// A memory that is sound.
#[derive(Clone, Copy)]
pub struct SoundMemory<'a> {
    pub words: &'a [u32],
    ghost sound: { T (sound (memory_of words.now)) },
}

impl<'a> SoundMemory<'a> {
    ghost use Rattle.memory.specs.Walks.{CellAt};

    // The memory, if it is sound.
    pub fn of(words: &'a [u32]) -> Option<SoundMemory<'a>>
        ensures sound { IsSome result ↔ T (sound (memory_of words.now)) }
        ensures same { IfSome result (λ m. m.words.now ≡ words.now) }
    {
        if is_sound(words) {
            Some(SoundMemory { words })
        } else {
            None
        }
    }

    // The number of the cell at a place, and where it leads.
    pub(crate) fn find(self, place: Place) -> Option<(usize, Place)>
        ensures at { CellAt (memory_of self.entry.words.now) place.0 result }
        ensures within { IfSome result (λ c. c.0 < length self.entry.words.now / 2) }
    {
        let (cells, _) = self.words.as_chunks::<2>();
        let i = first_at(cells, place.0)?;
        Some((i, Place(cells[i][1])))
    }
}

// The number of the first of the cells that is at the place.
fn first_at(cells: &[[u32; 2]], place: u32) -> Option<usize>
    ensures { result ≡ position (λ c. slice_index c 0 == place) cells.now }
{
    cells.iter().position(|[at, _]| *at == place)
}

pub fn is_sound(memory: &[u32]) -> bool
    ensures { result ≡ sound (memory_of memory.now) }
{
    let (mut cells, _) = memory.as_chunks::<2>();
    // each cell beside those behind it, which a chain over the cells alone does not have
    'cells: while let [[place, _], others @ ..] = cells {
        if *place == 0 || first_at(others, *place).is_some() {
            return false;
        }
        cells = others;
    }
    true
}
