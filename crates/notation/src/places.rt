// Lines and columns. They are counted onward from a place that is known, so that a text is counted over once
// and not once for each error in it.
ghost use Rattle.std.specs.Prelude.{◌≡◌};

use crate::characters::columns;
use crate::errors::Error;

// A byte of a text, with its line and column, both from 1. Columns count characters.
#[derive(Clone, Copy)]
pub struct Place {
    pub at: usize,
    pub line: usize,
    pub column: usize,
}

impl Place {
    // The first place of a text that is read from `at` on.
    pub fn first(at: usize) -> Place {
        Place {
            at,
            line: 1,
            column: 1,
        }
    }

    // The problem as an error at this place.
    pub fn error<P>(self, problem: P) -> Error<P>
        ensures { result ≡ record { line = self.line; column = self.column; at = self.at; problem = problem } }
    {
        let Place { at, line, column } = self;
        Error {
            line,
            column,
            at,
            problem,
        }
    }

    // The place of the byte `to` of the text, if it is further on.
    pub fn moved(self, text: &[u8], to: usize) -> Place {
        let Some(passed) = text.get(self.at..to) else {
            return self;
        };
        let lines = passed.iter().filter(|byte| **byte == b'\n').count();
        let (from, begun) = match passed.iter().rposition(|byte| *byte == b'\n') {
            Some(end) => (1, &passed[end + 1..]),
            None => (self.column, passed),
        };
        Place {
            at: to,
            line: self.line.saturating_add(lines),
            column: columns(begun).saturating_add(from),
        }
    }
}
