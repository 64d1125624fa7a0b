// A claim in a text: parts as in the word form of a question, with a part on a line or commas between.
// It stands beside the word form of `notation`: other words end a part here, `->` is a sign, and a word on the line
// after `nothing` gets another message.
ghost use Rattle.std.specs.Prelude.{◌≡◌, OnOk};
ghost use Rattle.notation.specs.Steps.{Goes, Passes};

use crate::items::{Sort, peek, take};
use crate::problems::Expected;
use crate::stops::Stop;
use notation::drafts::{Draft, Mention, Pair, Part};
use notation::scans::Scan;
use notation::stops::Stop as SharedStop;
use notation::tokens::Kind;
use std::alloc::Global;

// The next name, which follows on what stands from `from` on.
fn name<'a>(scan: &mut Scan<'a>, from: usize) -> Result<Mention, Stop<'a>>
    ensures { OnOk result (Passes scan.old scan.new) }
{
    let item = peek(scan);
    if matches!(item.sort, Sort::Claim | Sort::Memory) {
        return Err(scan.reserved(from, item.token).told_as());
    }
    scan.mention(from).map_err(|stop| stop.told_as())
}

// A part, of which `expected` says what it may be.
fn part<'a>(scan: &mut Scan<'a>, expected: Expected) -> Result<Part, Stop<'a>>
    ensures { OnOk result (Passes scan.old scan.new) }
{
    let before = *scan;
    let item = take(scan);
    let relation = match item.sort {
        Sort::Shared(Kind::Relation(relation)) => relation,
        Sort::Shared(_) => return Err(before.no_part(expected, item.token)),
        _ => return Err(before.missing(expected, before.last, item.token)),
    };
    let from = item.token.span.start;
    let left = name(scan, from)?;
    let right = name(scan, from)?;
    let pair = Pair { left, right };
    Ok(Part { relation, pair })
}

// Does a claim or a memory go on after a part or an entry that begins at `from`? Then what lies between is taken.
pub fn goes_on<'a>(scan: &mut Scan<'a>, from: usize) -> Result<bool, Stop<'a>>
    ensures { OnOk result (Goes scan.old scan.new) }
{
    let item = peek(scan);
    match item.sort {
        Sort::Shared(Kind::Comma) => {
            take(scan);
            scan.skip_lines();
            Ok(true)
        }
        Sort::Shared(Kind::Line) => {
            scan.skip_lines();
            Ok(!peek(scan).sort.is_end())
        }
        sort if sort.is_end() => Ok(false),
        _ => Err(scan.missing(Expected::CommaOrLine, from, item.token)),
    }
}

// Is it `nothing` here, alone? Then it is taken.
pub fn nothing<'a>(scan: &mut Scan<'a>) -> Result<bool, Stop<'a>>
    ensures { OnOk result (Goes scan.old scan.new) }
{
    let item = peek(scan);
    if item.sort != Sort::Shared(Kind::Nothing) {
        return Ok(false);
    }
    take(scan);
    if goes_on(scan, item.token.span.start)? {
        return Err(SharedStop::not_alone(scan.peek()).told_as());
    }
    Ok(true)
}

// The parts of a claim, up to what is no more of it.
pub fn parts<'a>(scan: &mut Scan<'a>, heap: Global) -> Result<Draft, Stop<'a>>
    ensures { OnOk result (Goes scan.old scan.new) }
{
    let mut draft = Draft::new(heap);
    scan.skip_lines();
    if nothing(scan)? {
        return Ok(draft);
    }
    let mut expected = Expected::PartOrNothing;
    loop {
        let from = scan.peek().span.start;
        let part = part(scan, expected)?;
        draft.add(part, from).map_err(|stop| stop.told_as())?;
        if !goes_on(scan, from)? {
            return Ok(draft);
        }
        expected = Expected::Part;
    }
}
