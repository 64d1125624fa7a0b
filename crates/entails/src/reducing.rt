// One step of settling a part of a question, with what is known: taking out what is found, and cutting.
ghost use Rattle.entails.specs.Reducing.{PartOf, Reduces};

use crate::goals::Goal;
use crate::pures::pures_match;
use linked::known::Known;
use matching::parts::Part;

#[derive(Clone, Copy)]
pub enum Reduced {
    // all is found
    Done,
    // this is left
    Left(Part),
    // this is left, in two parts that have nothing to do with each other
    Split(Part, Part),
}

// What is left of a part: by the names that stand for its names; and if the second claim's same and other are known,
// without what is found, and in two parts if it hangs together in more than one.
pub fn reduce(goal: &Goal, part: &Part, known: &Known) -> Reduced
    requires { PartOf goal.now known.now part.now }
    ensures { Reduces goal.now known.now part.now result }
{
    let renamed = part.renamed(known);
    if !pures_match(goal, known) {
        return Reduced::Left(renamed);
    }
    let left = renamed.cancelled(known);
    if left.own.count == 0 && left.wanted.count == 0 {
        return Reduced::Done;
    }
    left.cut().map_or(Reduced::Left(left), |(one, rest)| {
        Reduced::Split(one, rest)
    })
}
