// What is known of a whole claim, and whether that already gives a memory of which it holds.
ghost use Rattle.claims.specs.Meaning.{question_of};
ghost use Rattle.claims.specs.Words.{Limits};
ghost use Rattle.linked.specs.Settling.{ComesOut};

use crate::forks::is_forkless;
use crate::known::Known;
use crate::learn::learn_first;
use claims::Question;

// Three outcomes, of which two know something: a Result or Option of two kinds of knowledge would be no plainer.
pub enum Outcome {
    // the claim can't be
    Never,
    // something forks, with what is known
    Forks(Known),
    // nothing forks: the claim holds of the generic memory
    Holds(Known),
}

// Of a question's first claim.
pub fn settle_first(question: &Question) -> Outcome
    requires { Limits (question_of question.now) }
    ensures { ComesOut question.now.names (question_of question.now).first result }
{
    let Some(known) = learn_first(question) else {
        return Outcome::Never;
    };
    if is_forkless(question.first.atoms.as_slice(), &known) {
        return Outcome::Holds(known);
    }
    Outcome::Forks(known)
}
