// The cases of a text, one after another: each a claim and a memory. An error in one of them does not lose the
// others.
ghost use Rattle.std.specs.Prelude.{◌≡◌, length, IfOk, OnOk};
ghost use Rattle.claims.specs.Meaning.{claim_of, question_of};
ghost use Rattle.claims.specs.Words.{Limits};
ghost use Rattle.memory.specs.Checking.{IsClaim};
ghost use Rattle.notation.specs.Steps.{Goes};
ghost use Rattle.memory_notation.specs.Reading.{Advances, Gives, WellRead};

use crate::claim_texts::parts;
use crate::items::{Sort, peek, take};
use crate::memory_texts::read_entries;
use crate::problems::{Error, Expected};
use crate::stops::Stop;
use claims::Question;
use notation::Asked;
use notation::cursors::Cursor;
use notation::drafts::Draft;
use notation::numbering::numbered;
use notation::scans::Scan;
use notation::tokens::Kind;
use std::alloc::{AllocError, Global};

// A claim and a memory that stood in a text.
#[derive(Drop)]
pub struct Case<'a> {
    // the claim is the first of this question, and the second says nothing
    pub asked: Asked<'a>,
    // how many names there are, and then the claim's words
    pub claim: Vec<u32>,
    // the place that each name stands for
    pub names: Vec<u32>,
    // two words for each cell
    pub memory: Vec<u32>,
}

#[derive(Clone, Copy)]
pub struct Cases<'a> {
    cursor: Cursor<'a>,
}

// How many names there are, and then the words of the claim: those of the question up to its second claim.
fn claim_words(heap: Global, question: &Question) -> Result<Vec<u32>, AllocError>
    requires { Limits (question_of question.now) }
    ensures { IfOk result (λ v. IsClaim v.items question.now.names (claim_of question.now.first)) }
{
    let claim = &question.first;
    let most = 3 + 3 * (claim.pures.len() + claim.atoms.len());
    let mut words = question.words(heap)?;
    words.truncate(most);
    Ok(words)
}

// The parts of the claim after the word `claim`, with the names numbered, up to the word `memory`.
fn claim<'a>(scan: &mut Scan<'a>, heap: Global, line: usize) -> Result<Asked<'a>, Stop<'a>>
    ensures goes { OnOk result (Goes scan.old scan.new) }
    ensures limits { IfOk result (λ a. Limits (question_of a.question)) }
    ensures as_many { IfOk result (λ a. length a.names.items ≡ a.question.names) }
{
    let before = *scan;
    let item = take(scan);
    if item.sort != Sort::Claim {
        return Err(before.missing(Expected::Claim, before.last, item.token));
    }
    let draft = parts(scan, heap)?;
    let after = *scan;
    let item = take(scan);
    if item.sort != Sort::Memory {
        return Err(after.missing(Expected::Memory, after.last, item.token));
    }
    let none = Draft::new(heap);
    numbered(heap, before.text, line, &draft, &none).map_err(|stop| stop.told_as())
}

// The case that begins here, on this line.
fn read_case<'a>(scan: &mut Scan<'a>, heap: Global, line: usize) -> Result<Case<'a>, Stop<'a>>
    ensures { IfOk result WellRead }
{
    let asked = claim(scan, heap, line)?;
    let entries = read_entries(scan, heap, &asked)?;
    let item = peek(scan);
    if item.sort == Sort::Memory {
        return Err(scan.missing(Expected::EntryOrClaim, scan.last, item.token));
    }
    let claim = claim_words(heap, &asked.question)?;
    let names = entries.name_words(heap, &asked)?;
    let memory = entries.memory_words(heap)?;
    Ok(Case {
        asked,
        claim,
        names,
        memory,
    })
}

// Where the reading goes on after a fault at `at`: at the next `claim`.
fn recovered(text: &[u8], at: usize) -> usize {
    let mut scan = Scan::new(text, at);
    loop {
        let item = take(&mut scan);
        match item.sort {
            Sort::Claim | Sort::Shared(Kind::End) => return item.token.span.start,
            _ => {}
        }
    }
}

impl<'a> Cases<'a> {
    // Refuses what is too long to be read, or no text.
    pub fn new(text: &'a [u8]) -> Result<Cases<'a>, Error<'a>> {
        let cursor = Cursor::new(text).map_err(|e| e.told_as())?;
        Ok(Cases { cursor })
    }

    // The next case or the error in it, or `None` at the end of the text.
    pub fn next(&mut self, heap: Global) -> Result<Option<Result<Case<'a>, Error<'a>>>, AllocError>
        ensures same { self.new.cursor.text.now ≡ self.old.cursor.text.now }
        ensures gives { Gives result }
        ensures advances { Advances self.old result self.new }
    {
        let Some((mut scan, first)) = self.cursor.begin() else {
            return Ok(None);
        };
        let text = scan.text;
        let read = read_case(&mut scan, heap, self.cursor.line());
        let next = self
            .cursor
            .passed(first.span, scan.at, read, |at| recovered(text, at))?;
        Ok(Some(next))
    }
}
