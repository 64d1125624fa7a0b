// Numbers for the names of a question, in the order of its words: each claim's same and other before its
// cells and rows, the first claim before the second. The normal form prints the parts in that order, so it
// numbers the names in the same way as the text that was read.
ghost use Rattle.std.specs.Prelude.{◌≡◌, ℕ, ◌<◌, ◌≤◌, List, [], ◌∷◌, length, IfSome, IfOk, vec_len, slice_index_or};
ghost use Rattle.std.specs.List.{flat_map};
ghost use Rattle.claims.specs.Meaning.{pure_of, atom_of, claim_of};
ghost use Rattle.notation.specs.Spelling.{Distinct, Found, spellings, mention_spelling};
ghost use Rattle.notation.specs.Order.{InOrder, Numbered, pure_names, atom_names};
ghost use Rattle.notation.specs.Reading.{Asks};

use crate::drafts::{Draft, DraftAtom, DraftPure, Mention, Pair};
use crate::problems::Problem;
use crate::quotes::Quote;
use crate::spans::Span;
use crate::stops::Stop;
use claims::layouts::MOST_NAMES;
use claims::{Atom, Claim, Name, Pure, Question};
use std::alloc::Global;

// A question that was asked in a text.
#[derive(Drop)]
pub struct Asked<'a> {
    pub question: Question,
    // the whole text, for the spelling of the names
    pub text: &'a [u8],
    // where each name stands first in the question, for its spelling and for errors about it; the span of nowhere
    // is empty
    pub names: Vec<Span>,
    // the line where the question begins, from 1
    pub line: usize,
}

// A part of a claim as it is written: it becomes one with two numbers in place of its names.
trait Drafted: Copy {
    type Part: Drop;

    ghost names: { Self.Part → List ℕ };

    fn pair(self) -> Pair;

    fn numbered(self, x: Name, y: Name) -> Self::Part
        ensures { names result ≡ x.0 ∷ y.0 ∷ [] };
}

impl Drafted for DraftPure {
    type Part = Pure;

    ghost names = { λ p. pure_names (pure_of p) };

    fn pair(self) -> Pair {
        match self {
            DraftPure::Same(pair) | DraftPure::Other(pair) => pair,
        }
    }

    fn numbered(self, x: Name, y: Name) -> Pure {
        match self {
            DraftPure::Same(_) => Pure::Same(x, y),
            DraftPure::Other(_) => Pure::Other(x, y),
        }
    }
}

impl Drafted for DraftAtom {
    type Part = Atom;

    ghost names = { λ a. atom_names (atom_of a) };

    fn pair(self) -> Pair {
        match self {
            DraftAtom::Cell(pair) | DraftAtom::Row(pair) => pair,
        }
    }

    fn numbered(self, x: Name, y: Name) -> Atom {
        match self {
            DraftAtom::Cell(_) => Atom::Cell(x, y),
            DraftAtom::Row(_) => Atom::Row(x, y),
        }
    }
}

// Which of the names is spelled so in the text.
pub fn find(text: &[u8], names: &[Span], spelled: &[u8]) -> Option<usize>
    ensures within { IfSome result (λ i. i < length names.now) }
    ensures found { Found (spellings text.now names.now) spelled.now result }
{
    names.iter().position(|name| name.spells(text, spelled))
}

// The names so far, by where they stand first. The first is nowhere. A list that is searched for each mention, and no
// map: there are at most 64, by their numbers, and the list is what the question keeps.
#[derive(Drop)]
pub struct Table<'a> {
    text: &'a [u8],
    names: Vec<Span>,
    ghost some: { 1 ≤ vec_len names },
    ghost few: { vec_len names ≤ 64 },
    ghost nowhere: { length (slice_index_or (spellings text.now names.items) 0 []) ≡ 0 },
    ghost distinct: { Distinct (spellings text.now names.items) },
}

impl<'a> Table<'a> {
    fn new(heap: Global, text: &'a [u8]) -> Result<Table<'a>, Stop<Problem<'a>>>
        ensures same { IfOk result (λ t. t.text.now ≡ text.now) }
        ensures one { IfOk result (λ t. vec_len t.names ≡ 1) }
    {
        let mut names = Vec::new(heap);
        names.push(Span { start: 0, end: 0 })?;
        Ok(Table { text, names })
    }

    // The number of a name: one that came before, or the next.
    fn number(&mut self, mention: Mention) -> Result<Name, Stop<Problem<'a>>>
        ensures same { self.new.text.now ≡ self.old.text.now }
        ensures spelled { IfOk result (λ x. slice_index_or (spellings self.old.text.now self.new.names.items) x.0 [] ≡ mention_spelling self.old.text.now mention) }
        ensures order { IfOk result (λ x. InOrder (vec_len self.old.names) (x.0 ∷ []) (vec_len self.new.names)) }
    {
        let Mention::Name(span) = mention else {
            return Ok(Name(0));
        };
        let spelled = span.of(self.text);
        if let Some(i) = find(self.text, self.names.as_slice(), spelled) {
            return Ok(Name(i as u8));
        }
        let count = self.names.len();
        if count >= MOST_NAMES as usize {
            return Err(Stop::at(span.start, Problem::ManyNames(Quote::new(spelled))));
        }
        self.names.push(span)?;
        Ok(Name(count as u8))
    }

    // The part of a claim that the draft is.
    fn part<D: Drafted>(&mut self, draft: D) -> Result<D::Part, Stop<Problem<'a>>>
        ensures same { self.new.text.now ≡ self.old.text.now }
        ensures order { IfOk result (λ p. InOrder (vec_len self.old.names) (D.names p) (vec_len self.new.names)) }
    {
        let Pair { left, right } = draft.pair();
        let x = self.number(left)?;
        let y = self.number(right)?;
        Ok(draft.numbered(x, y))
    }

    fn parts<D: Drafted>(
        &mut self,
        heap: Global,
        drafts: &[D],
    ) -> Result<Vec<D::Part>, Stop<Problem<'a>>>
        ensures same { self.new.text.now ≡ self.old.text.now }
        ensures order { IfOk result (λ v. InOrder (vec_len self.old.names) (flat_map D.names v.items) (vec_len self.new.names) × (vec_len v ≡ length drafts.now)) }
    {
        let mut parts = Vec::new(heap);
        for draft in drafts {
            parts.push(self.part(*draft)?)?;
        }
        Ok(parts)
    }

    fn claim(&mut self, heap: Global, draft: &Draft) -> Result<Claim, Stop<Problem<'a>>>
        ensures same { self.new.text.now ≡ self.old.text.now }
        ensures order { IfOk result (λ c. Numbered (vec_len self.old.names) (claim_of c) (vec_len self.new.names)) }
    {
        let pures = self.parts(heap, draft.pures.as_slice())?;
        let atoms = self.parts(heap, draft.atoms.as_slice())?;
        Ok(Claim { pures, atoms })
    }
}

// The question that two claims of a text make.
pub fn numbered<'a>(
    heap: Global,
    text: &'a [u8],
    line: usize,
    first: &Draft,
    second: &Draft,
) -> Result<Asked<'a>, Stop<Problem<'a>>>
    ensures { IfOk result (Asks text.now) }
{
    let mut table = Table::new(heap, text)?;
    let first = table.claim(heap, first)?;
    let second = table.claim(heap, second)?;
    let Table { text: _, names } = table;
    let question = Question {
        names: names.len() as u8,
        first,
        second,
    };
    Ok(Asked {
        question,
        text,
        names,
        line,
    })
}
