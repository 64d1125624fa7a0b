// What must be the same and what can't be, from a whole claim.
ghost use Rattle.std.specs.Prelude.{◌≤◌, map, length};
ghost use Rattle.std.specs.List.{AllByRecursion};
ghost use Rattle.claims.specs.Meaning.{pure_of, atom_of, question_of};
ghost use Rattle.claims.specs.Words.{PureBelow, AtomBelow, Limits};
ghost use Rattle.linked.specs.Propagating.{Learnt, AllMet};

use crate::assume::assume;
use crate::known::Known;
use crate::propagate::propagate;
use claims::{Atom, Pure, Question};

// What is known of names wherever the claim holds, or nothing if it can't.
pub fn learn(pures: &[Pure], atoms: &[Atom]) -> Option<Known>
    requires few { length atoms.now ≤ 64 }
    requires small_pures { AllByRecursion (PureBelow 64) (map pure_of pures.now) }
    requires small_atoms { AllByRecursion (AtomBelow 64) (map atom_of atoms.now) }
    ensures learnt { Learnt (map pure_of pures.now) (map atom_of atoms.now) result }
    ensures met { AllMet (map pure_of pures.now) result }
{
    let known = assume(pures, Known::new())?;
    propagate(atoms, known)
}

// The same of a question's first claim.
pub fn learn_first(question: &Question) -> Option<Known>
    requires { Limits (question_of question.now) }
    ensures learnt { Learnt (question_of question.now).first.pures (question_of question.now).first.atoms result }
    ensures met { AllMet (question_of question.now).first.pures result }
{
    learn(
        question.first.pures.as_slice(),
        question.first.atoms.as_slice(),
    )
}
