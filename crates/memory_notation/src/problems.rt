// What can be wrong with a text, in words for people.
use notation::problems::{Missing, Problem as SharedProblem};
use notation::quotes::Quote;
use std::fmt;

// What should have stood in a place.
#[derive(Clone, Copy)]
pub enum Expected {
    Claim,
    Memory,
    Part,
    PartOrNothing,
    CommaOrLine,
    Entry,
    EntryOrNothing,
    EntryOrClaim,
    EqualsOrArrow,
    Name,
    Place,
}

#[derive(Clone, Copy)]
pub enum Problem<'a> {
    // one that a question can have as well
    Shared(SharedProblem<'a>),
    Missing(Missing<'a, Expected>),
    ManyNames(Quote<'a>),
    // a name of the claim that the memory gives no place
    NoPlace(Quote<'a>),
    NameTwice(Quote<'a>),
    NoNumber(Quote<'a>),
    LargeNumber(Quote<'a>),
    CellNowhere,
    CellTwice(u32),
    ManyCells,
}

pub type Error<'a> = notation::Error<Problem<'a>>;

impl fmt::Display for Expected {
    fn fmt<W: fmt::Write>(&self, f: &mut fmt::Formatter<W>) -> fmt::Result {
        f.write_str(match self {
            Expected::Claim => "`claim`",
            Expected::Memory => "another part or `memory`",
            Expected::Part => "`same`, `other`, `cell` or `row`",
            Expected::PartOrNothing => "`same`, `other`, `cell`, `row` or `nothing`",
            Expected::CommaOrLine => "`,` or a new line",
            Expected::Entry => "an entry as `a = 1` or `1 -> 2`",
            Expected::EntryOrNothing => "an entry as `a = 1` or `1 -> 2`, or `nothing`",
            Expected::EntryOrClaim => "another entry or the next `claim`",
            Expected::EqualsOrArrow => "`=` or `->`",
            Expected::Name => "a name before `=`",
            Expected::Place => "a place",
        })
    }
}

impl<'a> From<Missing<'a, Expected>> for Problem<'a> {
    fn from(missing: Missing<'a, Expected>) -> Problem<'a> {
        Problem::Missing(missing)
    }
}

// A claim has no more names than a question, and it is told of the claim.
impl<'a> From<SharedProblem<'a>> for Problem<'a> {
    fn from(problem: SharedProblem<'a>) -> Problem<'a> {
        match problem {
            SharedProblem::ManyNames(name) => Problem::ManyNames(name),
            problem => Problem::Shared(problem),
        }
    }
}

impl fmt::Display for Problem<'_> {
    fn fmt<W: fmt::Write>(&self, f: &mut fmt::Formatter<W>) -> fmt::Result {
        match self {
            Problem::Shared(problem) => write!(f, "{problem}"),
            Problem::Missing(missing) => write!(f, "{missing}"),
            Problem::ManyNames(name) => write!(
                f,
                "{name} is one name too many: a claim has at most 64 names, counting nowhere"
            ),
            Problem::NoPlace(name) => write!(f, "the memory doesn't say what {name} stands for"),
            Problem::NameTwice(name) => write!(
                f,
                "the memory says for the second time what {name} stands for"
            ),
            Problem::NoNumber(word) => write!(
                f,
                "expected a place, found {word}: a place is a number from 1, or `nowhere`"
            ),
            Problem::LargeNumber(word) => write!(
                f,
                "the place {word} is too large: the largest is 4294967295"
            ),
            Problem::CellNowhere => f.write_str("no cell can be nowhere: places count from 1"),
            Problem::CellTwice(place) => write!(
                f,
                "there is a cell at {place} already: a place has at most one"
            ),
            Problem::ManyCells => f.write_str("one cell too many: a memory has at most 16384"),
        }
    }
}
