// Trying memories: is one of them against it?
//
// A memory that is tried is written down and then checked by what claims mean, so that nothing depends on where it
// came from.
ghost use Rattle.std.specs.Prelude.{IfErr, ◌≡◌, ◌/◌, ◌≤◌, map, length, Decides};
ghost use Rattle.claims.specs.Decoding.{decoded_claim};
ghost use Rattle.claims.specs.Meaning.{atom_of};
ghost use Rattle.claims.specs.Memory.{Says};
ghost use Rattle.memory.specs.Marks.{memory_of};
ghost use Rattle.entails.specs.Telling.{told_memory, first_of, JudgedAgainst, tried, TriedOne};

use crate::goals::Goal;
use crate::stretches::Trial;
use crate::told::Told;
use claims::{Atom, Decoded};
use memory::cells::SoundMemory;
use memory::holds;

// The memory with one cell for each atom that isn't empty, but with two cells for the row that goes through a place.
pub fn write(trial: &Trial, atoms: &[Atom]) -> Told
    requires { length atoms.now ≤ 64 }
    ensures names { result.names ≡ trial.now.names }
    ensures cells { told_memory result ≡ tried trial.now.names (map atom_of atoms.now) trial.now.stretch }
{
    let stretch = trial.stretch;
    let mut told = Told::new(&trial.names);
    for (i, atom) in atoms.iter().enumerate() {
        match stretch.filter(|stretch| stretch.row == i) {
            Some(stretch) => told.link_through(*atom, stretch.through),
            None => told.link(*atom),
        }
    }
    told
}

// Does the claim hold of these names and this memory?
fn is_so(claim: &Decoded, names: &[u32; 64], memory: SoundMemory, marks: &mut [u32]) -> bool
    requires { length marks.old ≡ length memory.words.now / 2 }
    ensures { Decides result (Says names.now (memory_of memory.entry.words.now) (decoded_claim claim.now)) }
{
    holds(claim.pures(), claim.atoms(), names, memory, marks).is_ok()
}

impl Goal {
    // Is what is told against it: is the memory sound, does the first claim hold of it, and the second not?
    fn is_against(&self, told: &Told, marks: &mut [u32]) -> bool
        requires { 128 ≤ length marks.old }
        ensures { JudgedAgainst self.now told.now.names (told_memory told.now) result }
    {
        let marks = &mut marks[0..told.count];
        SoundMemory::of(told.memory()).is_some_and(|memory| {
            is_so(&self.first, &told.names, memory, marks)
                && !is_so(&self.second, &told.names, memory, marks)
        })
    }

    // Tries the generic memory, or the one in which a row of the first claim goes through a place.
    pub fn try_one(&self, trial: Trial, marks: &mut [u32]) -> Result<(), Trial>
        requires { 128 ≤ length marks.old }
        ensures tried { TriedOne self.now trial.names (tried trial.names (first_of self.now).atoms trial.stretch) result }
        ensures same { IfErr result (λ against. against ≡ trial) }
    {
        let told = write(&trial, self.first.atoms());
        if self.is_against(&told, marks) {
            return Err(trial);
        }
        Ok(())
    }
}
