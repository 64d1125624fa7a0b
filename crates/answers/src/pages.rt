// A question and its answer, for people.
ghost use Rattle.claims.specs.Meaning.{question_of};
ghost use Rattle.claims.specs.Words.{Limits};

use crate::asking::Answer;
use crate::memories::memory_form;
use findings::Description;
use notation::Asked;
use std::alloc::{AllocError, Global};

// The answer alone on the first line, so that a script can take it; then the question in the normal form, with what must be
// so of its first claim, and where it fails the instance, which the program `holds` reads.
pub fn page(heap: Global, asked: &Asked, answer: &Answer) -> Result<String, AllocError>
    requires { Limits (question_of asked.now.question) }
{
    let description = Description { asked };
    let mut out = format!(in heap; "{answer}\n{description}")?;
    if let Answer::Fails(instance) = answer {
        out.push_str("# here the first claim holds, and the second does not:\n")?;
        out.push_str(memory_form(heap, asked, instance)?.as_str())?;
    }
    Ok(out)
}
