// What must be the same, from a claim: till nothing new comes.
ghost use Rattle.std.specs.Prelude.{ℕ, ◌<◌, ◌≤◌, map, length};
ghost use Rattle.std.specs.List.{AllByRecursion};
ghost use Rattle.claims.specs.Meaning.{atom_of};
ghost use Rattle.claims.specs.Words.{AtomBelow};
ghost use Rattle.linked.specs.Knowing.{NoMore};
ghost use Rattle.linked.specs.Propagating.{Propagated};

use crate::atoms::Live;
use crate::known::Known;
use crate::view::View;
use claims::Atom;

// What is known of names if a memory is dealt out to these cells and rows, beyond what was known before; or nothing
// if that can't be.
pub fn propagate(atoms: &[Atom], mut known: Known) -> Option<Known>
    requires few { length atoms.now ≤ 64 }
    requires small { AllByRecursion (AtomBelow 64) (map atom_of atoms.now) }
    ensures propagated { Propagated (map atom_of atoms.now) known result }
    ensures no_more { NoMore known result }
{
    let mut before = 65;
    // a loop that begins again till nothing new comes: a rule here (docs/DECISIONS.md, What must be the same)
    'again: loop {
        let live = Live::of(atoms, &known);
        // Each turn but the last finds a row to be empty.
        if live.count < before {
            before = live.count;
            let view = View {
                live: &live,
                known: &known,
            };
            known = view.round()?;
            continue 'again;
        }
        return Some(known);
    }
}
