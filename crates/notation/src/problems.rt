// What can be wrong with a text, in words for people.
use crate::quotes::Quote;
use std::fmt;

// What should have stood in a place.
#[derive(Clone, Copy)]
pub enum Expected {
    Question,
    Name,
    Part,
    PartOrNothing,
    CommaOrLine,
    Then,
    PartOrQuestion,
    Term,
    Relation,
    Open,
    Comma,
    Close,
    StarOrEntails,
    StarOrLine,
}

// What stood there.
#[derive(Clone, Copy)]
pub enum Found<'a> {
    Word(Quote<'a>),
    // a character that begins no word and no sign
    Strange(Quote<'a>),
    Control,
    Line,
    End,
}

// What should follow on what, and what was found.
#[derive(Clone, Copy)]
pub struct Missing<'a, E> {
    pub expected: E,
    pub before: Quote<'a>,
    pub found: Found<'a>,
}

#[derive(Clone, Copy)]
pub enum Problem<'a> {
    TooLong,
    NotText,
    UnknownWord(Quote<'a>),
    // a word of the notation in a name's place, and what stands before it
    Reserved(Quote<'a>, Quote<'a>),
    Missing(Missing<'a, Expected>),
    // `nothing` beside other parts
    NotAlone,
    ManyNames(Quote<'a>),
    ManyPures,
    ManyAtoms,
}

impl fmt::Display for Expected {
    fn fmt<W: fmt::Write>(&self, f: &mut fmt::Formatter<W>) -> fmt::Result {
        f.write_str(match self {
            Expected::Question => "`if`, or a question on one line as `a |-> b |- ls(a, b)`",
            Expected::Name => "a name",
            Expected::Part => "`same`, `other`, `cell` or `row`",
            Expected::PartOrNothing => "`same`, `other`, `cell`, `row` or `nothing`",
            Expected::CommaOrLine => "`,` or a new line",
            Expected::Then => "`then`",
            Expected::PartOrQuestion => "another part or the next question",
            Expected::Term => "`x = y`, `x != y`, `x |-> y`, `ls(x, y)` or `emp`",
            Expected::Relation => "`=`, `!=` or `|->`",
            Expected::Open => "`(`",
            Expected::Comma => "`,`",
            Expected::Close => "`)`",
            Expected::StarOrEntails => "`*` or `|-`",
            Expected::StarOrLine => "`*` or the end of the line",
        })
    }
}

impl fmt::Display for Found<'_> {
    fn fmt<W: fmt::Write>(&self, f: &mut fmt::Formatter<W>) -> fmt::Result {
        match self {
            Found::Word(word) => write!(f, "{word}"),
            Found::Strange(sign) => write!(f, "{sign}, which begins no word of the notation"),
            Found::Control => f.write_str("a control character"),
            Found::Line => f.write_str("the end of the line"),
            Found::End => f.write_str("the end of the text"),
        }
    }
}

impl<E: fmt::Display> fmt::Display for Missing<'_, E> {
    fn fmt<W: fmt::Write>(&self, f: &mut fmt::Formatter<W>) -> fmt::Result {
        let Missing {
            expected,
            before,
            found,
        } = self;
        write!(f, "expected {expected}")?;
        if !before.is_empty() {
            write!(f, " after {before}")?;
        }
        write!(f, ", found {found}")
    }
}

impl<'a> From<Missing<'a, Expected>> for Problem<'a> {
    fn from(missing: Missing<'a, Expected>) -> Problem<'a> {
        Problem::Missing(missing)
    }
}

impl fmt::Display for Problem<'_> {
    fn fmt<W: fmt::Write>(&self, f: &mut fmt::Formatter<W>) -> fmt::Result {
        match self {
            Problem::TooLong => f.write_str("the text is longer than 3 MiB, the most that is read"),
            Problem::NotText => f.write_str(
                "expected text in UTF-8, found bytes that are no character of it",
            ),
            Problem::UnknownWord(word) => write!(
                f,
                "{word} is no word of the notation: expected `same`, `other`, `cell` or `row`"
            ),
            Problem::Reserved(word, before) if before.is_empty() => write!(
                f,
                "expected a name, found {word}, which is a word of the notation and can't be a name"
            ),
            Problem::Reserved(word, before) => write!(
                f,
                "expected a name after {before}, found {word}, which is a word of the notation and can't be a name"
            ),
            Problem::Missing(missing) => write!(f, "{missing}"),
            Problem::NotAlone => f.write_str(
                "`nothing` stands alone: expected no other part beside it",
            ),
            Problem::ManyNames(name) => write!(
                f,
                "{name} is one name too many: a question has at most 64 names, counting nowhere"
            ),
            Problem::ManyPures => f.write_str(
                "one `same` or `other` too many: a claim has at most 256",
            ),
            Problem::ManyAtoms => f.write_str("one cell or row too many: a claim has at most 64"),
        }
    }
}
