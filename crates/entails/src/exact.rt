// Exact where all is known of the names: it follows, or one of few memories is against it.
ghost use Rattle.std.specs.Prelude.{◌+◌, ◌≤◌, IfErr, IfOk, length};
ghost use Rattle.entails.specs.Telling.{TrialAgainst};
ghost use Rattle.entails.specs.Trying.{StretchesTried, Exactly};

use crate::goals::Goal;
use crate::stretches::{Stretch, Trial};
use crate::telling::places;
use linked::known::Known;

impl Goal {
    // Tries the memories in which a row of the first claim goes through a place: each name's, or one without a name.
    fn try_stretches(&self, names: [u32; 64], row: usize, marks: &mut [u32]) -> Result<(), Trial>
        requires { 128 ≤ length marks.old }
        ensures tried { IfOk result (λ _. StretchesTried self.now names row (self.now.names + 1)) }
        ensures against { IfErr result (TrialAgainst self.now) }
    {
        for through in 1..=u32::from(self.names) {
            let stretch = Some(Stretch { row, through });
            self.try_one(Trial { names, stretch }, marks)?;
        }
        Ok(())
    }

    // Tries all memories with each name at the number of the one that stands for it. If none is against it, it follows for
    // all names of that pattern.
    pub fn try_all(&self, known: &Known, marks: &mut [u32]) -> Result<(), Trial>
        requires { 128 ≤ length marks.old }
        ensures { Exactly self.now known.now result }
    {
        let names = places(known, self.names);
        let generic = Trial {
            names,
            stretch: None,
        };
        self.try_one(generic, marks)?;
        for row in 0..self.first.shape.atoms {
            self.try_stretches(names, row, marks)?;
        }
        Ok(())
    }
}
