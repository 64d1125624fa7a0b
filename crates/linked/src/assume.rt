// What is known of names from a claim's same and other.
ghost use Rattle.std.specs.Prelude.{◌<◌, map};
ghost use Rattle.std.specs.List.{AllByRecursion};
ghost use Rattle.claims.specs.Meaning.{pure_of};
ghost use Rattle.claims.specs.Words.{PureBelow};
ghost use Rattle.linked.specs.Propagating.{Assumed, AssumedOne};

use crate::known::Known;
use claims::Pure;

// What is known if these hold too, or nothing if they can't.
pub fn assume(pures: &[Pure], mut known: Known) -> Option<Known>
    requires { AllByRecursion (PureBelow 64) (map pure_of pures.now) }
    ensures { Assumed (map pure_of pures.now) known result }
{
    for pure in pures {
        known = assume_one(*pure, &known)?;
    }
    Some(known)
}

// What is known if this holds too, or nothing if it can't.
fn assume_one(pure: Pure, known: &Known) -> Option<Known>
    requires { PureBelow 64 (pure_of pure) }
    ensures { AssumedOne (pure_of pure) known.now result }
{
    match pure {
        Pure::Same(x, y) => known.join(x.0, y.0),
        Pure::Other(x, y) => known.part(x.0, y.0),
    }
}
