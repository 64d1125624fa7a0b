// A memory in a text: entries as `a = 1` and `1 -> 2`, with an entry on a line or commas between.
ghost use Rattle.std.specs.Prelude.{◌≡◌, OnOk};
ghost use Rattle.notation.specs.Steps.{Goes, Passes};

use crate::claim_texts::{goes_on, nothing};
use crate::entries::{Cell, Entries, Entry};
use crate::items::{Sort, take};
use crate::problems::{Expected, Problem};
use crate::stops::Stop;
use notation::Asked;
use notation::quotes::Quote;
use notation::scans::Scan;
use notation::stops::Stop as SharedStop;
use notation::tokens::{Kind, Token};
use std::alloc::Global;
use std::str::from_utf8;

// The place that the word is.
fn place_of<'a>(text: &'a [u8], token: Token) -> Result<u32, Stop<'a>> {
    if token.kind == Kind::Nowhere {
        return Ok(0);
    }
    let word = token.span.of(text);
    let at = token.span.start;
    if !word.iter().all(|byte| byte.is_ascii_digit()) {
        return Err(Stop::at(at, Problem::NoNumber(Quote::new(word))));
    }
    from_utf8(word)
        .unwrap_or("")
        .parse::<u32>()
        .map_err(|_| Stop::at(at, Problem::LargeNumber(Quote::new(word))))
}

// The next place, which follows on what stands from `from` on.
fn place<'a>(scan: &mut Scan<'a>, from: usize) -> Result<u32, Stop<'a>>
    ensures { OnOk result (Goes scan.old scan.new) }
{
    let before = *scan;
    let item = take(scan);
    match item.sort {
        Sort::Shared(Kind::Name | Kind::Nowhere) => place_of(scan.text, item.token),
        _ => Err(before.missing(Expected::Place, from, item.token)),
    }
}

// The word that an entry begins with.
fn first_word<'a>(scan: &mut Scan<'a>, expected: Expected) -> Result<Token, Stop<'a>>
    ensures { OnOk result (Passes scan.old scan.new) }
{
    let before = *scan;
    let item = take(scan);
    match item.sort {
        Sort::Shared(Kind::Name | Kind::Nowhere) => Ok(item.token),
        Sort::Shared(Kind::Nothing) => Err(SharedStop::not_alone(item.token).told_as()),
        _ => Err(before.missing(expected, before.last, item.token)),
    }
}

// An entry, of which `expected` says what it may be.
fn entry<'a>(scan: &mut Scan<'a>, expected: Expected) -> Result<Entry, Stop<'a>>
    ensures { OnOk result (Passes scan.old scan.new) }
{
    let before = *scan;
    let word = first_word(scan, expected)?;
    let from = word.span.start;
    let middle = *scan;
    let sign = take(scan);
    match sign.sort {
        Sort::Arrow => {
            let at = place_of(before.text, word)?;
            let to = place(scan, from)?;
            Ok(Entry::Cell(Cell { at, to }))
        }
        Sort::Shared(Kind::Equals) => {
            if word.kind == Kind::Nowhere {
                return Err(before.missing(Expected::Name, before.last, word));
            }
            let place = place(scan, from)?;
            Ok(Entry::Name(word.span, place))
        }
        _ => Err(middle.missing(Expected::EqualsOrArrow, from, sign.token)),
    }
}

// The entries of a memory, up to what is no more of it.
pub fn read_entries<'a>(
    scan: &mut Scan<'a>,
    heap: Global,
    asked: &Asked<'a>,
) -> Result<Entries, Stop<'a>>
    ensures { OnOk result (Goes scan.old scan.new) }
{
    let mut entries = Entries::new(heap, asked.names.len())?;
    scan.skip_lines();
    if nothing(scan)? {
        return Ok(entries);
    }
    let mut expected = Expected::EntryOrNothing;
    loop {
        let from = scan.peek().span.start;
        let entry = entry(scan, expected)?;
        entries.put(asked, entry, from)?;
        if !goes_on(scan, from)? {
            return Ok(entries);
        }
        expected = Expected::Entry;
    }
}
