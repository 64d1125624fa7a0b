// A question for people.
ghost use Rattle.claims.specs.Meaning.{question_of};
ghost use Rattle.claims.specs.Words.{Limits};
ghost use Rattle.findings.specs.Proposition.{limited};

use crate::counts::Counts;
use crate::findings::FoundOut;
use notation::Asked;
use std::alloc::{AllocError, Global};
use std::fmt;

// How many names and parts the question has, the question in the normal form, and what was found out about its first claim.
// A program can print this without making a text of it first, which may be much longer than the question.
#[derive(Clone, Copy)]
pub struct Description<'a> {
    pub asked: &'a Asked<'a>,
    ghost limits: { Limits (question_of asked.now.question) } by { Prim.hlevel limited },
}

impl fmt::Display for Description<'_> {
    fn fmt<W: fmt::Write>(&self, f: &mut fmt::Formatter<W>) -> fmt::Result {
        let asked = self.asked;
        let counts = Counts { asked };
        let found = FoundOut { asked };
        write!(f, "{counts}{asked}{found}")
    }
}

// The description as a text.
pub fn described(heap: Global, asked: &Asked) -> Result<String, AllocError>
    requires { Limits (question_of asked.now.question) }
{
    let description = Description { asked };
    format!(in heap; "{description}")
}
