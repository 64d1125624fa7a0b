// How many names and parts a question has, as a comment line of the notation.
use notation::Asked;
use std::alloc::{AllocError, Global};
use std::fmt;

// How many names and parts the question has.
#[derive(Clone, Copy)]
pub(crate) struct Counts<'a> {
    pub(crate) asked: &'a Asked<'a>,
}

impl fmt::Display for Counts<'_> {
    fn fmt<W: fmt::Write>(&self, f: &mut fmt::Formatter<W>) -> fmt::Result {
        let line = self.asked.line;
        let names = self.asked.question.names;
        let (first, second) = (&self.asked.question.first, &self.asked.question.second);
        let (if_pures, then_pures) = (first.pures.len(), second.pures.len());
        let (if_atoms, then_atoms) = (first.atoms.len(), second.atoms.len());
        write!(
            f,
            "# line {line}; names with nowhere: {names}; same and other: {if_pures}, {then_pures}; cells and rows: {if_atoms}, {then_atoms}\n"
        )
    }
}

pub fn counted(heap: Global, asked: &Asked) -> Result<String, AllocError> {
    let counts = Counts { asked };
    format!(in heap; "{counts}")
}
