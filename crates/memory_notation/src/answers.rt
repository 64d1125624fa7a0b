// Does a claim hold of a memory? The answer for people.
ghost use Rattle.std.specs.Prelude.{IfOk};
ghost use Rattle.memory_notation.specs.Answering.{Answered};

use crate::cases::Case;
use crate::sentences::sentence;
use memory::check;
use std::alloc::{AllocError, Global};
use std::fmt;

// Three answers for people, each with words of its own.
#[derive(Drop)]
pub enum Answer {
    Holds,
    // why it doesn't hold
    Fails(String),
    // the case is none that can be checked
    Refused,
}

impl fmt::Display for Answer {
    fn fmt<W: fmt::Write>(&self, f: &mut fmt::Formatter<W>) -> fmt::Result {
        match self {
            Answer::Holds => f.write_str("holds"),
            Answer::Fails(why) => write!(f, "does not hold: {why}"),
            Answer::Refused => f.write_str("can't be checked"),
        }
    }
}

// Does the claim of the case hold of its memory?
pub fn judge(heap: Global, case: &Case) -> Result<Answer, AllocError>
    ensures { IfOk result (Answered case.now) }
{
    let mut work = vec![in heap; 0u32; case.memory.len() / 2]?;
    let checked = check(
        case.claim.as_slice(),
        case.names.as_slice(),
        case.memory.as_slice(),
        work.as_mut_slice(),
    );
    match checked {
        Ok(Ok(())) => Ok(Answer::Holds),
        Ok(Err(why)) => Ok(Answer::Fails(sentence(heap, case, why)?)),
        Err(_) => Ok(Answer::Refused),
    }
}
