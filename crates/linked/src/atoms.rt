// Up to 64 cells and rows, by value.
ghost use Rattle.std.specs.Prelude.{◌≡◌, ℕ, ◌+◌, ◌<◌, ◌≤◌, [], ◌∷◌, ◌++◌, map, length, take, slice_index_or};
ghost use Rattle.std.specs.List.{AllByRecursion};
ghost use Rattle.claims.specs.Meaning.{atom_of};
ghost use Rattle.claims.specs.Words.{AtomBelow};
ghost use Rattle.memory.specs.Owners.{start, end};
ghost use Rattle.linked.specs.Spare.{spare};

use claims::{Atom, Name};

// Whoever makes one shows that the slice's names are below 64, as `assume` and `learn` ask it of *same* and *other*. A type for
// such a slice would be made at each call, by the same fact.
// An array with a count, since a vector of fixed capacity is not `Copy`, and parts of questions are handed on by value.
#[derive(Clone, Copy)]
pub struct Live {
    pub atoms: [Atom; 64],
    pub count: usize,
    ghost full: { length atoms ≡ 64 },
    ghost few: { count ≤ 64 },
    ghost starts: { (j : ℕ) → j < count → start (atom_of (slice_index_or atoms j spare)) < 64 },
    ghost ends: { (j : ℕ) → j < count → end (atom_of (slice_index_or atoms j spare)) < 64 },
}

impl Live {
    pub fn new() -> Live
        ensures { result.count ≡ 0 }
    {
        let nothing = Atom::Row(Name(0), Name(0));
        Live {
            atoms: [nothing; 64],
            count: 0,
        }
    }

    // One atom more.
    pub fn with(self, atom: Atom) -> Live
        requires room { self.count < 64 }
        requires start { start (atom_of atom) < 64 }
        requires end { end (atom_of atom) < 64 }
        ensures more { take result.count result.atoms ≡ take self.count self.atoms ++ atom ∷ [] }
        ensures count { result.count ≡ self.count + 1 }
    {
        let mut atoms = self.atoms;
        atoms[self.count] = atom;
        Live {
            atoms,
            count: self.count + 1,
        }
    }

    // The atoms, in order.
    pub fn as_slice(&self) -> &[Atom]
        ensures value { result.now ≡ take self.now.count self.now.atoms }
        ensures count { length result.now ≡ self.now.count }
        ensures below { AllByRecursion (AtomBelow 64) (map atom_of result.now) }
        ensures starts { (j : ℕ) → j < length result.now → start (atom_of (slice_index_or result.now j spare)) < 64 }
        ensures ends { (j : ℕ) → j < length result.now → end (atom_of (slice_index_or result.now j spare)) < 64 }
    {
        &self.atoms[..self.count]
    }
}
