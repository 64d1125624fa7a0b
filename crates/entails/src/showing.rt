// Memories that a failed match points at: the generic one, and one in which a row goes through a place.
ghost use Rattle.std.specs.Prelude.{◌≤◌, IfErr, length};
ghost use Rattle.entails.specs.Telling.{TrialAgainst};

use crate::goals::Goal;
use crate::stretches::{Stretch, Trial};
use crate::telling::places;
use crate::wishes::Detour;
use claims::Atom;
use linked::forks::is_forkless;
use linked::known::Known;

// Is it a row, and do these names stand for its ends?
fn is_row(atom: Atom, known: &Known, row: (u8, u8)) -> bool {
    matches!(atom, Atom::Row(x, y)
        if x.0 < 64 && y.0 < 64 && known.find(x.0) == row.0 && known.find(y.0) == row.1)
}

impl Goal {
    // The first claim's row that is meant, by its number.
    fn stretch(&self, known: &Known, detour: Detour) -> Option<Stretch> {
        let row = self
            .first
            .atoms()
            .iter()
            .position(|atom| is_row(*atom, known, detour.row))?;
        Some(Stretch {
            row,
            through: u32::from(detour.through),
        })
    }

    // Where nothing forks, tries the generic memory, and the one that is wished for.
    pub fn show(
        &self,
        known: &Known,
        detour: Option<Detour>,
        marks: &mut [u32],
    ) -> Result<(), Trial>
        requires { 128 ≤ length marks.old }
        ensures { IfErr result (TrialAgainst self.now) }
    {
        if !is_forkless(self.first.atoms(), known) {
            return Ok(());
        }
        let names = places(known, self.names);
        let generic = Trial {
            names,
            stretch: None,
        };
        self.try_one(generic, marks)?;
        let stretch = detour.and_then(|detour| self.stretch(known, detour));
        if stretch.is_some() {
            self.try_one(Trial { names, stretch }, marks)?;
        }
        Ok(())
    }
}
