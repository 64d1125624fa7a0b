// A claim as it is written, before its names are numbered.
ghost use Rattle.std.specs.Prelude.{◌≤◌, vec_len};

use crate::problems::Problem;
use crate::spans::Span;
use crate::stops::Stop;
use claims::layouts::{MOST_ATOMS, MOST_PURES};
use std::alloc::Global;

// Which of the two claims of a question it is.
#[derive(Clone, Copy, PartialEq)]
pub enum Side {
    First,
    Second,
}

// A name in the text. No `Option` of a span: nowhere is a name too, which `None` would not say.
#[derive(Clone, Copy)]
pub enum Mention {
    Nowhere,
    Name(Span),
}

#[derive(Clone, Copy)]
pub struct Pair {
    pub left: Mention,
    pub right: Mention,
}

// What a part says of its two names.
#[derive(Clone, Copy, PartialEq)]
pub enum Relation {
    Same,
    Other,
    Cell,
    Row,
}

#[derive(Clone, Copy)]
pub struct Part {
    pub relation: Relation,
    pub pair: Pair,
}

#[derive(Clone, Copy)]
pub enum DraftPure {
    Same(Pair),
    Other(Pair),
}

#[derive(Clone, Copy)]
pub enum DraftAtom {
    Cell(Pair),
    Row(Pair),
}

// The parts of a claim, no more than it may have.
#[derive(Drop)]
pub struct Draft {
    pub pures: Vec<DraftPure>,
    pub atoms: Vec<DraftAtom>,
    ghost few_pures: { vec_len pures ≤ 256 },
    ghost few_atoms: { vec_len atoms ≤ 64 },
}

impl Draft {
    pub fn new(heap: Global) -> Draft {
        Draft {
            pures: Vec::new(heap),
            atoms: Vec::new(heap),
        }
    }

    // Adds the part, which stands at `at` in the text, or refuses one too many.
    pub fn add<'a>(&mut self, part: Part, at: usize) -> Result<(), Stop<Problem<'a>>> {
        let Part { relation, pair } = part;
        match relation {
            Relation::Same => self.add_pure(DraftPure::Same(pair), at),
            Relation::Other => self.add_pure(DraftPure::Other(pair), at),
            Relation::Cell => self.add_atom(DraftAtom::Cell(pair), at),
            Relation::Row => self.add_atom(DraftAtom::Row(pair), at),
        }
    }

    fn add_pure<'a>(&mut self, pure: DraftPure, at: usize) -> Result<(), Stop<Problem<'a>>> {
        let too_many = Stop::at(at, Problem::ManyPures);
        put(&mut self.pures, pure, MOST_PURES, too_many)
    }

    fn add_atom<'a>(&mut self, atom: DraftAtom, at: usize) -> Result<(), Stop<Problem<'a>>> {
        let too_many = Stop::at(at, Problem::ManyAtoms);
        put(&mut self.atoms, atom, MOST_ATOMS, too_many)
    }
}

// One part more, unless there are as many as there may be.
fn put<'a, T: Drop>(
    parts: &mut Vec<T>,
    part: T,
    most: u32,
    too_many: Stop<Problem<'a>>,
) -> Result<(), Stop<Problem<'a>>>
    requires { vec_len parts.old ≤ most }
    ensures { vec_len parts.new ≤ most }
{
    if parts.len() >= most as usize {
        return Err(too_many);
    }
    parts.push(part)?;
    Ok(())
}
