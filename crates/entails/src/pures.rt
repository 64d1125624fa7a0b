// Are the second claim's same and other known?
ghost use Rattle.std.specs.Prelude.{◌≡◌, true, map};
ghost use Rattle.std.specs.List.{AllByRecursion};
ghost use Rattle.claims.specs.Meaning.{pure_of};
ghost use Rattle.claims.specs.Words.{PureBelow};
ghost use Rattle.matching.specs.Rules.{PureKnown};
ghost use Rattle.entails.specs.Telling.{second_of};

use crate::goals::Goal;
use claims::Pure;
use linked::known::Known;

// Is the same or other known?
pub fn is_known(pure: Pure, known: &Known) -> bool
    requires { PureBelow 64 (pure_of pure) }
    ensures { result ≡ true → PureKnown known.now (pure_of pure) }
{
    match pure {
        Pure::Same(x, y) => known.same(x.0, y.0),
        Pure::Other(x, y) => known.other(x.0, y.0),
    }
}

// Are all of these known?
fn all_known(pures: &[Pure], known: &Known) -> bool
    requires { AllByRecursion (PureBelow 64) (map pure_of pures.now) }
    ensures { result ≡ true → AllByRecursion (PureKnown known.now) (map pure_of pures.now) }
{
    pures.iter().all(|pure| is_known(*pure, known))
}

// Are the second claim's?
pub fn pures_match(goal: &Goal, known: &Known) -> bool
    ensures { result ≡ true → AllByRecursion (PureKnown known.now) (second_of goal.now).pures }
{
    all_known(goal.second.pures(), known)
}
