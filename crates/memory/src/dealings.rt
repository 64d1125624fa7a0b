// A memory's cells, of which some are taken.
ghost use Rattle.std.specs.Prelude.{◌≡◌, ◌/◌, length};
ghost use Rattle.memory.specs.Marks.{memory_of};

use crate::cells::SoundMemory;
use claims::Place;

// Which cells are taken is told by marks, a word for each cell: 0 if the cell is still there.
#[derive(Drop)]
pub struct Dealing<'a> {
    pub memory: SoundMemory<'a>,
    pub marks: &'a mut [u32],
    ghost room: { length marks.now ≡ length memory.words.now / 2 },
}

impl<'a> Dealing<'a> {
    ghost use Rattle.memory.specs.Dealings.{rest};
    ghost use Rattle.memory.specs.Judging.{Unmarked};
    ghost use Rattle.memory.specs.Walks.{Stepped};

    // With no cell taken yet. The marks are lent, and hold any words.
    pub fn begin(memory: SoundMemory<'a>, marks: &'a mut [u32]) -> Dealing<'a>
        requires { length marks.old ≡ length memory.words.now / 2 }
        ensures memory { result.memory ≡ memory.entry }
        ensures all { rest result ≡ memory_of memory.entry.words.now }
    {
        marks.fill(0);
        Dealing { memory, marks }
    }

    // Takes the cell at a place, if it is still there, and answers where it leads.
    pub(crate) fn step(&mut self, from: Place) -> Option<Place>
        ensures memory { self.new.memory ≡ self.old.memory }
        ensures stepped { Stepped from.0 (rest self.old) (rest self.new) result }
    {
        let (i, next) = self.memory.find(from)?;
        if self.marks[i] != 0 {
            return None;
        }
        self.marks[i] = 1;
        Some(next)
    }

    // The number of the first cell that is not taken.
    pub fn left_over(&self) -> Option<usize>
        ensures { Unmarked self.now.marks.now result }
    {
        self.marks.iter().position(|mark| *mark == 0)
    }
}
