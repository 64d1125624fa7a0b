// The words and signs of a text, one after another. Blanks and comments are passed over.
ghost use Rattle.std.specs.Prelude.{◌≡◌, ◌+◌, ◌<◌, ◌≤◌, length};
ghost use Rattle.notation.specs.Steps.{Step, Goes};

use crate::characters::{ends_line, is_blank};
use crate::drafts::Relation;
use crate::scans::Scan;
use crate::spans::Span;

#[derive(Clone, Copy, PartialEq)]
pub enum Kind {
    // a word that is free to be a name
    Name,
    // `nowhere`, `nil` or `0`
    Nowhere,
    If,
    Then,
    // `same`, `other`, `cell` or `row`
    Relation(Relation),
    Nothing,
    Emp,
    Ls,
    Comma,
    Star,
    Equals,
    Differs,
    // `|->`
    Arrow,
    // `|-`
    Entails,
    Open,
    Close,
    // the end of a line
    Line,
    // the end of the text
    End,
    // a character that begins no word and no sign
    Strange,
}

impl Kind {
    // Is it a word of the notation that can't be a name?
    pub fn is_reserved(self) -> bool {
        matches!(
            self,
            Kind::If | Kind::Then | Kind::Relation(_) | Kind::Nothing | Kind::Emp | Kind::Ls
        )
    }
}

#[derive(Clone, Copy)]
pub struct Token {
    pub kind: Kind,
    pub span: Span,
}

// A character beyond ASCII counts as a letter, and so does each of its bytes.
fn is_letter(b: u8) -> bool {
    b.is_ascii_alphanumeric() || b == b'_' || b == b'\'' || b >= 0x80
}

// How many bytes stand before the first at which it stops.
fn until<F: Fn(u8) -> bool + Drop>(text: &[u8], stops: F) -> usize
    requires { F.IsAlwaysCallable stops }
    ensures { result ≤ length text.now }
{
    text.iter()
        .position(|byte| stops(*byte))
        .unwrap_or(text.len())
}

// Where the next word or sign begins, or the line ends.
fn skip_blanks(text: &[u8], from: usize) -> usize
    requires { from ≤ length text.now }
    ensures { (from ≤ result) × (result ≤ length text.now) }
{
    let at = from + until(&text[from..], |byte| !is_blank(byte));
    if text[at..].first() == Some(&b'#') {
        at + until(&text[at..], ends_line)
    } else {
        at
    }
}

// Where the word that begins at `from` ends.
fn word_end(text: &[u8], from: usize) -> usize
    requires { from < length text.now }
    ensures { (from < result) × (result ≤ length text.now) }
{
    let rest = from + 1;
    rest + until(&text[rest..], |byte| !is_letter(byte))
}

fn word_kind(word: &[u8]) -> Kind {
    match word {
        b"if" => Kind::If,
        b"then" => Kind::Then,
        b"same" => Kind::Relation(Relation::Same),
        b"other" => Kind::Relation(Relation::Other),
        b"cell" => Kind::Relation(Relation::Cell),
        b"row" => Kind::Relation(Relation::Row),
        b"nothing" => Kind::Nothing,
        b"emp" => Kind::Emp,
        b"ls" => Kind::Ls,
        b"nowhere" | b"nil" | b"0" => Kind::Nowhere,
        _ => Kind::Name,
    }
}

// The sign that the bytes begin with, and its length.
fn sign(bytes: &[u8]) -> (Kind, usize)
    requires { 0 < length bytes.now }
    ensures { (0 < result.1) × (result.1 ≤ length bytes.now) }
{
    match bytes {
        [b'|', b'-', b'>', ..] => (Kind::Arrow, 3),
        [b'|', b'-', ..] => (Kind::Entails, 2),
        [b'!', b'=', ..] => (Kind::Differs, 2),
        [b',', ..] => (Kind::Comma, 1),
        [b'*', ..] => (Kind::Star, 1),
        [b'=', ..] => (Kind::Equals, 1),
        [b'(', ..] => (Kind::Open, 1),
        [b')', ..] => (Kind::Close, 1),
        [b'\n' | b'\r', ..] => (Kind::Line, 1),
        _ => (Kind::Strange, 1),
    }
}

// The word or sign at `from` or after it. It is empty only at the end of the text.
fn token_at(text: &[u8], from: usize) -> Token
    requires { from ≤ length text.now }
    ensures { Step text.now from result }
{
    let start = skip_blanks(text, from);
    if start >= text.len() {
        return Token {
            kind: Kind::End,
            span: Span { start, end: start },
        };
    }
    if is_letter(text[start]) {
        let end = word_end(text, start);
        let kind = word_kind(&text[start..end]);
        return Token {
            kind,
            span: Span { start, end },
        };
    }
    let (kind, len) = sign(&text[start..]);
    let end = start + len;
    Token {
        kind,
        span: Span { start, end },
    }
}

// No iterator, since an error at the end of a text or a line tells of the token there.
impl<'a> Scan<'a> {
    // The place at the byte `at`, or at the end of the text if it is not so long.
    pub fn new(text: &'a [u8], at: usize) -> Scan<'a>
        ensures same { result.text.now ≡ text.now }
        ensures below { at < length text.now → result.at ≡ at }
        ensures beyond { length text.now ≤ at → result.at ≡ length text.now }
    {
        let at = at.min(text.len());
        Scan { text, at, last: at }
    }

    // The next word or sign, which is not taken yet.
    pub fn peek(&self) -> Token
        ensures { Step self.now.text.now self.now.at result }
    {
        token_at(self.text, self.at)
    }

    // Takes the next word or sign.
    pub fn take(&mut self) -> Token
        ensures step { Step self.old.text.now self.old.at result }
        ensures goes { Goes self.old self.new }
        ensures at { self.new.at ≡ result.span.end }
    {
        let token = self.peek();
        self.at = token.span.end;
        if !matches!(token.kind, Kind::Line | Kind::End) {
            self.last = token.span.end;
        }
        token
    }

    // Passes over the ends of lines.
    pub fn skip_lines(&mut self)
        ensures { Goes self.old self.new }
    {
        let mut next = *self;
        while next.take().kind == Kind::Line {
            *self = next;
        }
    }

    // Is there a `|-` on this line, from here on?
    pub fn sees_entails(mut self) -> bool {
        loop {
            match self.take().kind {
                Kind::Entails => return true,
                Kind::Line | Kind::End => return false,
                _ => {}
            }
        }
    }
}
