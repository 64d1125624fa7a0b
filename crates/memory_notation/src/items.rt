// The words and signs of this notation: those of the notation for questions, and `claim`, `memory` and `->`.
// What reads them here are functions and no methods of `Scan`, since a crate can't add methods to another's type.
ghost use Rattle.std.specs.Prelude.{◌≡◌, ◌<◌, ◌≢◌};
ghost use Rattle.notation.specs.Steps.{Goes};
ghost use Rattle.memory_notation.specs.Items.{Advances};

use notation::Span;
use notation::scans::Scan;
use notation::tokens::{Kind, Token};

#[derive(Clone, Copy, PartialEq)]
pub enum Sort {
    Claim,
    Memory,
    // `->`
    Arrow,
    Shared(Kind),
}

impl Sort {
    // Does it end a claim or a memory?
    pub fn is_end(self) -> bool {
        matches!(self, Sort::Claim | Sort::Memory | Sort::Shared(Kind::End))
    }
}

#[derive(Clone, Copy)]
pub struct Item {
    pub sort: Sort,
    pub token: Token,
}

fn word_sort(word: &[u8]) -> Sort
    ensures { result ≢ Sort.Shared Kind.End }
{
    match word {
        b"claim" => Sort::Claim,
        b"memory" => Sort::Memory,
        _ => Sort::Shared(Kind::Name),
    }
}

// Takes the next word or sign.
pub fn take(scan: &mut Scan<'_>) -> Item
    ensures goes { Goes scan.old scan.new }
    ensures advances { Advances scan.old result scan.new }
{
    let token = scan.take();
    let Span { start, end } = token.span;
    match token.kind {
        Kind::Name => Item {
            sort: word_sort(token.span.of(scan.text)),
            token,
        },
        Kind::Strange if token.span.spells(scan.text, b"-") => {
            let mut next = *scan;
            let tip = next.take();
            if tip.span.start != end || !tip.span.spells(scan.text, b">") {
                return Item {
                    sort: Sort::Shared(Kind::Strange),
                    token,
                };
            }
            *scan = next;
            let end = tip.span.end;
            Item {
                sort: Sort::Arrow,
                token: Token {
                    kind: Kind::Arrow,
                    span: Span { start, end },
                },
            }
        }
        kind => Item {
            sort: Sort::Shared(kind),
            token,
        },
    }
}

// The next word or sign, which is not taken yet.
pub fn peek(scan: &Scan<'_>) -> Item {
    let mut next = *scan;
    take(&mut next)
}
