// Settling a whole question.
ghost use Rattle.std.specs.Prelude.{◌≤◌, length};
ghost use Rattle.entails.specs.Reducing.{Whole};
ghost use Rattle.entails.specs.Deciding.{GoalSettled};

use crate::goals::Goal;
use crate::recents::Recent;
use crate::told::Told;
use linked::assume::assume;
use linked::atoms::Live;
use linked::known::Known;
use matching::drawing::draw;
use matching::parts::Part;

impl Goal {
    // The whole question as a part: all atoms of both claims.
    pub fn whole(&self, known: &Known) -> Part
        ensures { Whole self.now known.now result }
    {
        Part {
            own: Live::of(self.first.atoms(), known),
            others: Live::new(),
            wanted: Live::of(self.second.atoms(), known),
        }
    }

    // Does the second claim follow from the first? If not, names and a memory that are against it.
    pub fn settle(&self, marks: &mut [u32]) -> Result<(), Told>
        requires { 128 ≤ length marks.old }
        ensures { GoalSettled self.now result }
    {
        let Some(known) = assume(self.first.pures(), Known::new()) else {
            return Ok(());
        };
        let part = self.whole(&known);
        let Some(drawn) = draw(&part, known) else {
            return Ok(());
        };
        self.search(drawn, part, &mut Recent::default(), marks)
            .map_err(|trial| self.shrink(self.told(&trial), marks))
    }
}
