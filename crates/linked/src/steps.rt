// What a look at one cell or row finds out.
ghost use Rattle.std.specs.Prelude.{◌≡◌, ◌<◌};
ghost use Rattle.linked.specs.Knowing.{NoMore};
ghost use Rattle.linked.specs.Living.{atoms_of};
ghost use Rattle.linked.specs.Propagating.{Propagated};
ghost use Rattle.linked.specs.Reaching.{FoundOut};

use crate::known::Known;
use crate::view::View;
use claims::Atom;

// The claim can't be.
#[derive(Clone, Copy, Debug, PartialEq, Eq)]
pub struct Never;

impl View<'_> {
    // Can the atom number e have a cell where it begins? If not, it is an empty row, whose ends are the same, or the claim
    // can't be.
    pub fn look(&self, e: usize) -> Result<Option<(u8, u8)>, Never>
        requires { e < self.now.live.now.count }
        ensures { FoundOut self.now.known.now (atoms_of self.now.live.now) result }
    {
        let atom = self.live.get(e);
        let reach = self.live.reach(e, atom.start().0);
        let barred = reach.is_barred(self.known);
        match atom {
            Atom::Cell(_, _) if barred => Err(Never),
            Atom::Row(x, y) if barred || reach.names.has(y.0) => Ok(Some((x.0, y.0))),
            _ => Ok(None),
        }
    }

    // Only where two go out from one name, or one from nowhere, can a look find something.
    fn is_worth_a_look(&self, e: usize) -> bool
        requires { e < self.now.live.now.count }
    {
        let start = self.live.get(e).start();
        start.0 == 0
            || self
                .live
                .as_slice()
                .iter()
                .enumerate()
                .any(|(j, atom)| j != e && atom.start() == start)
    }

    // The first thing that a look at one of the atoms finds out.
    pub fn next_step(&self) -> Result<Option<(u8, u8)>, Never>
        ensures { FoundOut self.now.known.now (atoms_of self.now.live.now) result }
    {
        // a look is at an atom's number, not at the atom alone
        for e in 0..self.live.count {
            if !self.is_worth_a_look(e) {
                continue;
            }
            let found = self.look(e);
            if found != Ok(None) {
                return found;
            }
        }
        Ok(None)
    }

    // One look at each of the atoms, at what was known before: all that they find out is joined, since what is found from
    // less stays true. A new look after each would cost more.
    pub fn round(&self) -> Option<Known>
        ensures propagated { Propagated (atoms_of self.now.live.now) self.now.known.now result }
        ensures no_more { NoMore self.now.known.now result }
    {
        let mut more = *self.known;
        for e in 0..self.live.count {
            if !self.is_worth_a_look(e) {
                continue;
            }
            if let Some((x, y)) = self.look(e).ok()? {
                more = more.join(x, y)?;
            }
        }
        Some(more)
    }
}
