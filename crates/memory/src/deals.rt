// Does a claim hold of names and a memory?
//
// The memory's cells are dealt out to the claim's cells and rows, one after the other. Since each of them says
// which cells are its own, there is one way to do this, and no search.
ghost use Rattle.std.specs.Prelude.{◌≡◌, ◌/◌, map, length, Decides};
ghost use Rattle.claims.specs.Meaning.{pure_of, atom_of};
ghost use Rattle.claims.specs.Memory.{PureHolds};
ghost use Rattle.memory.specs.Dealings.{rest};
ghost use Rattle.memory.specs.Judging.{FalseFound, DealtOut, Judged, claim_from};
ghost use Rattle.memory.specs.Marks.{memory_of};

use crate::cells::SoundMemory;
use crate::dealings::Dealing;
use crate::walks::at;
use claims::{Atom, Place, Pure};

// Why a claim doesn't hold: the first same or other that is false, by its number; the first cell or row that is
// not there, by its number, and the place where the search for it got stuck; or a cell that is left over.
#[derive(Clone, Copy, Debug, PartialEq, Eq)]
pub enum Why {
    Pure(usize),
    Stuck(usize, Place),
    LeftOver(usize),
}

// Is it so, with what the names stand for?
fn is_true(pure: Pure, names: &[u32]) -> bool
    ensures { Decides result (PureHolds names.now (pure_of pure)) }
{
    match pure {
        Pure::Same(x, y) => at(names, x) == at(names, y),
        Pure::Other(x, y) => at(names, x) != at(names, y),
    }
}

// The number of the first same or other that is false.
fn first_false(pures: &[Pure], names: &[u32]) -> Option<usize>
    ensures { FalseFound names.now (map pure_of pures.now) result }
{
    pures.iter().position(|pure| !is_true(*pure, names))
}

impl<'a> Dealing<'a> {
    // Takes the cells of all atoms. If an atom's cells are not there, tells its number, and where it got stuck.
    fn deal(&mut self, atoms: &[Atom], names: &[u32]) -> Result<(), Why>
        ensures memory { self.new.memory ≡ self.old.memory }
        ensures dealt { DealtOut names.now (rest self.old) (map atom_of atoms.now) (rest self.new) result }
    {
        for (i, atom) in atoms.iter().enumerate() {
            self.take(*atom, names)
                .map_err(|place| Why::Stuck(i, place))?;
        }
        Ok(())
    }
}

// Does the claim with these parts hold? The marks are lent, a word for each cell, and hold any words afterwards. How many they
// are is asked for wherever they are lent on; a dealing has it by its type.
pub fn holds(
    pures: &[Pure],
    atoms: &[Atom],
    names: &[u32],
    memory: SoundMemory,
    marks: &mut [u32],
) -> Result<(), Why>
    requires { length marks.old ≡ length memory.words.now / 2 }
    ensures { Judged names.now (memory_of memory.entry.words.now) (claim_from pures.now atoms.now) result }
{
    if let Some(i) = first_false(pures, names) {
        return Err(Why::Pure(i));
    }
    let mut dealing = Dealing::begin(memory, marks);
    dealing.deal(atoms, names)?;
    if let Some(j) = dealing.left_over() {
        return Err(Why::LeftOver(j));
    }
    Ok(())
}
