// What can be drawn from the first claim's cells and rows.
ghost use Rattle.linked.specs.Knowing.{NoMore};
ghost use Rattle.linked.specs.Propagating.{Propagated};
ghost use Rattle.matching.specs.Parting.{whole_of};

use crate::parts::Part;
use linked::known::Known;
use linked::propagate::propagate;

// What is known beyond that, if all of a part's atoms of the first claim have their cells; or nothing, if there are no such names.
#[tactic(auto, using(crate::proofs::Lists::slice_below))]
pub fn draw(part: &Part, known: Known) -> Option<Known>
    ensures propagated { Propagated (whole_of part.now) known result }
    ensures no_more { NoMore known result }
{
    propagate(part.whole().as_slice(), known)
}
