// The two sides of a pair of names: they are the same, or they are other; with what can be drawn then.
ghost use Rattle.claims.specs.Ends.{left, right};
ghost use Rattle.claims.specs.Meaning.{pure_of};
ghost use Rattle.claims.specs.Words.{PureBelow};
ghost use Rattle.linked.specs.Knowing.{Fewer};
ghost use Rattle.matching.specs.Parting.{whole_of};
ghost use Rattle.entails.specs.Searching.{OnSide};

use claims::Pure;
use linked::known::Known;
use matching::drawing::draw;
use matching::parts::Part;

// What is known if this same or other holds besides; or nothing, if it can't.
pub fn side(part: &Part, known: &Known, pure: Pure) -> Option<Known>
    requires { PureBelow 64 (pure_of pure) }
    ensures side { OnSide known.now (pure_of pure) (whole_of part.now) result }
    ensures fewer { Fewer known.now (left (pure_of pure)) (right (pure_of pure)) result }
{
    // as `linked` takes up one of a claim, which there need not promise that fewer pairs are undecided
    let more = match pure {
        Pure::Same(x, y) => known.join(x.0, y.0)?,
        Pure::Other(x, y) => known.part(x.0, y.0)?,
    };
    draw(part, more)
}
