// Finding a cell or row of the second claim among the first claim's.
//
// A row is made of atoms one behind the other. It may pass an atom only if its own end is never inside: else it would
// have to stop there. Rows of which it isn't known whether they are empty are passed as well.
ghost use Rattle.std.specs.Prelude.{◌≡◌, ◌<◌, true, IfSome};
ghost use Rattle.claims.specs.Meaning.{atom_of};
ghost use Rattle.claims.specs.Words.{AtomBelow};
ghost use Rattle.linked.specs.Living.{atoms_of};
ghost use Rattle.linked.specs.Reaching.{Barred};
ghost use Rattle.matching.specs.Using.{OtherThan, all_of, ComesNext, RowUsed, CellThere, AtomUsed};

use crate::rests::{DeadEnd, Rest};
use crate::steps::Next;
use claims::{Atom, Name};
use linked::known::Known;
use linked::reaching::Reach;

// Is a name that is reached, and so would stand for the place, known to be other than u?
fn apart_from(reach: &Reach, known: &Known, u: u8) -> bool
    requires { u < 64 }
    ensures { result ≡ true → OtherThan known.now (atoms_of reach.now.live.now) reach.now.without reach.now.from u }
{
    (0..64u8).any(|x| reach.names.has(x) && known.other(x, u))
}

// That t is below 64 is asked of each, since linked asks it of a name: a type for such a number would have to stand in all atoms.
impl<'a> Rest<'a> {
    // Is the place of t never one of the cells of the atom number e?
    pub fn outside(&self, e: usize, t: u8) -> bool
        requires within { e < self.now.live.now.count }
        requires small { t < 64 }
        ensures { result ≡ true → Barred self.now.known.now (all_of self.now) e t }
    {
        let reach = self.live.reach(e, t);
        reach.is_barred(self.known)
            || match self.live.get(e) {
                Atom::Cell(u, _) => apart_from(&reach, self.known, u.0),
                Atom::Row(_, w) => reach.names.has(w.0),
            }
    }

    // What comes next on the way of a row that is at s and ends at t. Where several atoms begin, only one that leads to t.
    pub fn next(&self, s: u8, t: u8) -> Next
        requires { t < 64 }
        ensures { ComesNext self.now s t result }
    {
        let one = self.ways(s) < 2;
        // over the numbers, by which an atom is used and asked about
        (0..self.own)
            .find(|e| self.begins(*e, s) && (one || self.leads(*e, t)) && self.outside(*e, t))
            .map_or(Next::Stuck, Next::Over)
    }

    // What is left when a row from s to t is made, or where its way doesn't go on.
    pub fn without_row(&self, s: u8, t: u8) -> Result<Rest<'a>, DeadEnd<'a>>
        requires { t < 64 }
        ensures { RowUsed self.now s t result }
    {
        let mut rest = *self;
        let mut at = s;
        while at != t {
            let Next::Over(e) = rest.next(at, t) else {
                return Err(DeadEnd { rest, at });
            };
            at = rest.live.get(e).end().0;
            rest = rest.without(e);
        }
        Ok(rest)
    }

    // The number of the cell from x to y, if it is still there.
    fn find_cell(&self, x: Name, y: Name) -> Option<usize>
        ensures { IfSome result (λ e. CellThere self.now x.0 y.0 e) }
    {
        (0..self.own).find(|e| !self.used.has(*e) && self.live.get(*e) == Atom::Cell(x, y))
    }

    // What is left when an atom of the second claim is made, or nothing if it isn't found.
    pub fn without_atom(&self, atom: Atom) -> Option<Rest<'a>>
        requires { AtomBelow 64 (atom_of atom) }
        ensures { AtomUsed self.now (atom_of atom) result }
    {
        match atom {
            Atom::Cell(x, y) => Some(self.without(self.find_cell(x, y)?)),
            Atom::Row(x, y) => self.without_row(x.0, y.0).ok(),
        }
    }
}
