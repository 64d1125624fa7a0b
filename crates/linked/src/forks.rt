// Does nothing fork? Then a claim with these cells and rows whose same and other are known holds of a memory with one cell for
// each that isn't known to be empty, and in which names are the same only where that is known.
ghost use Rattle.std.specs.Prelude.{◌≡◌, true, map};
ghost use Rattle.std.specs.List.{AllByRecursion};
ghost use Rattle.claims.specs.Meaning.{atom_of};
ghost use Rattle.claims.specs.Words.{AtomBelow};
ghost use Rattle.linked.specs.Forking.{HasGeneric, SettledMemory};
ghost use Rattle.linked.specs.Generics.{live, Forkless, HoldsGeneric};
ghost use Rattle.linked.specs.Living.{atoms_of};

use crate::atoms::Live;
use crate::bits::NameSet;
use crate::known::Known;
use crate::view::View;
use claims::Atom;

// Is it not known to be empty?
fn is_live(atom: Atom, known: &Known) -> bool
    requires { AtomBelow 64 (atom_of atom) }
    ensures { result ≡ live known.now (atom_of atom) }
{
    match atom {
        Atom::Cell(_, _) => true,
        Atom::Row(x, y) => !known.same(x.0, y.0),
    }
}

// Do all cells and rows that are not known to be empty begin somewhere, and no two of them at one place?
pub fn is_forkless(atoms: &[Atom], known: &Known) -> bool
    requires { AllByRecursion (AtomBelow 64) (map atom_of atoms.now) }
    ensures exact { Forkless known.now (map atom_of atoms.now) result }
    ensures settled { result ≡ true → SettledMemory known.now (map atom_of atoms.now) }
    ensures generic { result ≡ true → HoldsGeneric known.now (map atom_of atoms.now) }
{
    let mut seen = NameSet::new();
    for atom in atoms {
        if !is_live(*atom, known) {
            continue;
        }
        let start = known.find(atom.start().0);
        if start == 0 || seen.has(start) {
            return false;
        }
        seen = seen.with(start);
    }
    true
}

impl View<'_> {
    // The same of live atoms.
    pub fn nothing_forks(&self) -> bool
        ensures { result ≡ true → HasGeneric self.now.known.now (atoms_of self.now.live.now) }
    {
        is_forkless(self.live.as_slice(), self.known)
    }
}
