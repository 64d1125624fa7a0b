// The cells and rows of a claim by the names that stand for their ends, without the rows that are known to be empty.
ghost use Rattle.std.specs.Prelude.{◌≡◌, ℕ, ◌<◌, ◌≤◌, true, map, length, slice_index_or};
ghost use Rattle.std.specs.List.{AllByRecursion};
ghost use Rattle.claims.specs.Meaning.{atom_of};
ghost use Rattle.claims.specs.Memory.{Names};
ghost use Rattle.claims.specs.Claims.{Atom as ClaimAtom};
ghost use Rattle.memory.specs.Owners.{Empty, start, end};
ghost use Rattle.claims.specs.Words.{AtomBelow};
ghost use Rattle.linked.specs.Living.{Lives, Settled, atoms_of};

use crate::atoms::Live;
use crate::known::Known;
use claims::{Atom, Name};

// The atom by the names that stand for its ends.
fn settled(atom: Atom, known: &Known) -> Atom
    requires { AtomBelow 64 (atom_of atom) }
    ensures { Settled known.now (atom_of atom) (atom_of result) }
{
    match atom {
        Atom::Cell(x, y) => Atom::Cell(Name(known.find(x.0)), Name(known.find(y.0))),
        Atom::Row(x, y) => Atom::Row(Name(known.find(x.0)), Name(known.find(y.0))),
    }
}

// Is it a row whose ends are the same name?
fn is_empty(atom: Atom) -> bool
    ensures { result ≡ true → (n : Names) → Empty n (atom_of atom) }
{
    matches!(atom, Atom::Row(x, y) if x == y)
}

impl Live {
    // The atom number j. That there is one is asked for here and where a look is at it, as by an index of any list.
    pub fn get(&self, j: usize) -> Atom
        requires { j < self.now.count }
        ensures is { (d : ClaimAtom) → slice_index_or (atoms_of self.now) j d ≡ atom_of result }
        ensures start { start (atom_of result) < 64 }
        ensures end { end (atom_of result) < 64 }
    {
        self.atoms[j]
    }

    // The atoms that are live, of those that are given.
    pub fn of(atoms: &[Atom], known: &Known) -> Live
        requires few { length atoms.now ≤ 64 }
        requires small { AllByRecursion (AtomBelow 64) (map atom_of atoms.now) }
        ensures lives { Lives known.now (map atom_of atoms.now) (atoms_of result) }
        ensures no_more { result.count ≤ length atoms.now }
    {
        let mut live = Live::new();
        for atom in atoms {
            let settled = settled(*atom, known);
            if is_empty(settled) {
                continue;
            }
            live = live.with(settled);
        }
        live
    }
}
