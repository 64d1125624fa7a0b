// Can the place of a name be one of the cells of a cell or row?
ghost use Rattle.std.specs.Prelude.{◌≡◌, ◌<◌, true};
ghost use Rattle.claims.specs.Meaning.{atom_of};
ghost use Rattle.linked.specs.Living.{atoms_of};
ghost use Rattle.linked.specs.Reaching.{Barred, CellBegins};

use crate::known::Known;
use crate::reaching::Reach;
use claims::Atom;

impl Reach<'_> {
    // Is the atom a cell that begins at a name that is reached?
    fn is_cell_reached(&self, atom: &Atom) -> bool
        ensures { result ≡ true → CellBegins self.now.names.0 (atom_of atom.now) }
    {
        matches!(atom, Atom::Cell(x, _) if self.names.has(x.0))
    }

    // Does a cell other than the one that is left out begin at a name that is reached?
    fn has_cell(&self) -> bool
        ensures { result ≡ true → (k : Known) → Barred k (atoms_of self.now.live.now) self.now.without self.now.from }
    {
        let atoms = self.live.as_slice();
        atoms.iter().enumerate().any(|(j, atom)| j != self.without && self.is_cell_reached(atom))
    }

    // Are both reached, and known to be other?
    fn are_other(&self, known: &Known, x: u8, y: u8) -> bool
        requires x_small { x < 64 }
        requires y_small { y < 64 }
        ensures { result ≡ true → Barred known.now (atoms_of self.now.live.now) self.now.without self.now.from }
    {
        self.names.has(x) && self.names.has(y) && known.others[x as usize].has(y)
    }

    // Is x reached, and known to be other than a name that is reached?
    fn is_other_reached(&self, known: &Known, x: u8) -> bool
        requires { x < 64 }
        ensures { result ≡ true → Barred known.now (atoms_of self.now.live.now) self.now.without self.now.from }
    {
        // most names have none of the others in common with what is reached: the look at each is left out
        known.others[x as usize].mask().meets(self.names)
            && (0..64u8).any(|y| self.are_other(known, x, y))
    }

    // Can the place from which they are reached be none of the cells of the atom that is left out? Only if that is
    // nowhere, if another cell is there, or if two that are other would stand for it.
    pub fn is_barred(&self, known: &Known) -> bool
        ensures { result ≡ true → Barred known.now (atoms_of self.now.live.now) self.now.without self.now.from }
    {
        self.names.has(0) || self.has_cell() || (0..64u8).any(|x| self.is_other_reached(known, x))
    }
}
