// Errors, with the line and the column where they stand. `P` is what can be wrong with a text.
ghost use Rattle.std.specs.Prelude.{◌≡◌};

use std::fmt;

// A problem and where it is. Lines and columns count from 1, and columns count characters.
#[derive(Clone, Copy)]
pub struct Error<P> {
    pub line: usize,
    pub column: usize,
    // the byte of the text
    pub at: usize,
    pub problem: P,
}

impl<P> Error<P> {
    // The same error, told as a problem of another kind.
    pub fn told_as<Q: From<P>>(self) -> Error<Q>
        ensures line { result.line ≡ self.line }
        ensures column { result.column ≡ self.column }
        ensures at { result.at ≡ self.at }
    {
        let Error {
            line,
            column,
            at,
            problem,
        } = self;
        Error {
            line,
            column,
            at,
            problem: Q::from(problem),
        }
    }
}

// LINE:COLUMN: MESSAGE
impl<P: fmt::Display> fmt::Display for Error<P> {
    fn fmt<W: fmt::Write>(&self, f: &mut fmt::Formatter<W>) -> fmt::Result {
        write!(f, "{}:{}: {}", self.line, self.column, self.problem)
    }
}
