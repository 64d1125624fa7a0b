// What follows, what fails, and a second opinion of each instance by the checking call.
ghost use Rattle.claims.specs.Meaning.{question_of};
ghost use Rattle.claims.specs.Words.{Limits};

use answers::{Answer, Instance, Lent, ask};
use claims::{Question, read};
use memory::check as check_claim;
use notation::Reader;
use std::alloc::{AllocError, Global};
use std::process::Abort;
use std::test::Fail;

// How a question came out.
#[derive(Clone, Copy, Debug, PartialEq, Eq)]
enum Outcome {
    Follows,
    // the instance has so many cells; the checking call finds that the first claim holds of it, and the second doesn't
    Fails(usize),
    // the checking call finds otherwise
    Wrong,
    NoQuestion,
}

// Does the claim hold of the instance, as the checking call finds? The claim's words have the number of names in front.
fn holds(claim: &[u32], instance: &Instance) -> Option<bool> {
    let mut marks = [0; 128];
    let checked = check_claim(
        claim,
        instance.names.as_slice(),
        instance.memory.as_slice(),
        &mut marks,
    );
    checked.ok().map(|verdict| verdict.is_ok())
}

// What the checking call finds of the two claims of a question whose words these are.
fn judged(heap: Global, words: &[u32], instance: &Instance) -> Result<Outcome, AllocError> {
    let Some(layout) = read(words) else {
        return Ok(Outcome::NoQuestion);
    };
    let end = 1 + layout.first.len();
    // the number of names stands in front of each claim
    let first: Vec<u32> = words.iter().take(end).copied().collect(heap)?;
    let rest = words.iter().skip(end);
    let second: Vec<u32> = words.iter().take(1).chain(rest).copied().collect(heap)?;
    let first_holds = holds(first.as_slice(), instance);
    let second_holds = holds(second.as_slice(), instance);
    Ok(match (first_holds, second_holds) {
        (Some(true), Some(false)) => Outcome::Fails(instance.memory.len() / 2),
        _ => Outcome::Wrong,
    })
}

// The answer to a question, with a second opinion.
fn asked(heap: Global, question: &Question) -> Result<Outcome, AllocError>
    requires { Limits (question_of question.now) }
{
    let mut lent = Lent::new(heap)?;
    match ask(heap, question, &mut lent)? {
        Answer::Follows => Ok(Outcome::Follows),
        Answer::Fails(instance) => {
            let words = question.words(heap)?;
            judged(heap, words.as_slice(), &instance)
        }
    }
}

// The answer to the only question of a text.
fn found(heap: Global, text: &str) -> Result<Outcome, AllocError> {
    let Ok(mut reader) = Reader::new(text.as_bytes()) else {
        return Ok(Outcome::NoQuestion);
    };
    match reader.next(heap)? {
        Some(Ok(next)) => asked(heap, &next.question),
        _ => Ok(Outcome::NoQuestion),
    }
}

fn follows(rt: &impl Abort, heap: Global, text: &str) -> Result<(), Fail> {
    assert_eq!(rt; found(heap, text)?, Outcome::Follows, "{}", text);
    Ok(())
}

// It fails, and the instance has so many cells.
fn fails(rt: &impl Abort, heap: Global, text: &str, cells: usize) -> Result<(), Fail> {
    assert_eq!(rt; found(heap, text)?, Outcome::Fails(cells), "{}", text);
    Ok(())
}

#[test]
fn cells_before_rows(rt: HostRuntime) -> Result<(), Fail> {
    let heap = rt.alloc();
    follows(
        &rt,
        heap,
        "if cell a b, row b nil then other a nil, row a nil",
    )?;
    fails(&rt, heap, "if row a b, other a b then cell a b", 2)?;
    // the first can't be
    follows(&rt, heap, "if cell a b, cell a c then row a a")
}

#[test]
fn rows_behind_rows(rt: HostRuntime) -> Result<(), Fail> {
    let heap = rt.alloc();
    assert!(rt;
        matches!(
            found(heap, "if row a b, row b c then row a c")?,
            Outcome::Fails(_)
        ),
        "c may lie inside"
    );
    follows(
        &rt,
        heap,
        "if row a b, row b c, cell c d then row a c, cell c d",
    )?;
    follows(
        &rt,
        heap,
        "if row a b, row a c, other b a then same a c, row a b",
    )
}

#[test]
fn empty_rows(rt: HostRuntime) -> Result<(), Fail> {
    let heap = rt.alloc();
    follows(&rt, heap, "if row nil a then same a nil")?;
    fails(&rt, heap, "if row a b then nothing", 1)?;
    follows(&rt, heap, "if row a b, same a b then nothing")?;
    follows(&rt, heap, "if nothing then nothing")?;
    fails(&rt, heap, "if nothing then same a nil", 0)
}
