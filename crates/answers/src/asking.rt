// Does the second claim of a question follow from the first?
ghost use Rattle.std.specs.Prelude.{IfOk};
ghost use Rattle.claims.specs.Meaning.{question_of};
ghost use Rattle.claims.specs.Words.{Limits};
ghost use Rattle.answers.specs.Answering.{Answers};

use crate::instances::Instance;
use crate::lending::Lent;
use claims::Question;
use entails::{Decided, decide};
use std::alloc::{AllocError, Global};
use std::fmt;

// Room for what is told: a word for each of 64 names, and four for each of the first claim's 64 cells and rows.
const ROOM: usize = 320;

// No `Option` of an instance: people are told one of these two words.
#[derive(Drop)]
pub enum Answer {
    // The second claim holds wherever the first does.
    Follows,
    // The first claim holds of this instance, and the second doesn't.
    Fails(Instance),
}

impl fmt::Display for Answer {
    fn fmt<W: fmt::Write>(&self, f: &mut fmt::Formatter<W>) -> fmt::Result {
        f.write_str(match self {
            Answer::Follows => "follows",
            Answer::Fails(_) => "fails",
        })
    }
}

// The answer to a question that is within the limits.
pub fn ask(heap: Global, question: &Question, lent: &mut Lent) -> Result<Answer, AllocError>
    requires { Limits (question_of question.now) }
    ensures { IfOk result (Answers (question_of question.now)) }
{
    let words = question.words(heap)?;
    // `decide` has no heap: the words that it works with and the room for what it tells are lent to it
    let mut told = [0u32; ROOM];
    match decide(words.as_slice(), &mut told, lent.words.as_mut_slice()) {
        Decided::Follows => Ok(Answer::Follows),
        Decided::Fails(cells) => {
            let names = usize::from(question.names);
            let instance = Instance::copy(heap, &told[0..names], &told[names..names + 2 * cells])?;
            Ok(Answer::Fails(instance))
        }
        // the words are a question's, as many are lent as are asked for, and there is room
        Decided::NoClaims | Decided::Few | Decided::OutFull => unreachable(),
    }
}
