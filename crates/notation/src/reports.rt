// An error as lines for people: where and what it is, the line of the text, and a caret under the column.
ghost use Rattle.std.specs.Prelude.{◌≤◌, length};

use crate::characters::{begins_character, columns, ends_line, shown};
use crate::errors::Error;
use crate::spans::Span;
use std::alloc::{AllocError, Global};
use std::fmt;

// A line of more columns is cut.
const WIDEST: usize = 80;

// What is left of it then, without the `...` on both sides.
const KEPT: usize = 70;

// Where the character begins that has so many columns of the text before it, or the line ends. No more is looked at.
fn width(text: &[u8], columns: usize) -> usize
    ensures { result ≤ length text.now }
{
    text.iter()
        .enumerate()
        .filter(|(_, byte)| begins_character(**byte))
        .enumerate()
        .find(|(before, (_, byte))| *before == columns || ends_line(**byte))
        .map_or(text.len(), |(_, (at, _))| at)
}

// The place so many columns further on in the line, or the line's end.
fn forward(text: &[u8], from: usize, columns: usize) -> usize {
    let from = from.min(text.len());
    from + width(&text[from..], columns)
}

// The place so many columns further back, or the text's beginning.
fn back(text: &[u8], from: usize, columns: usize) -> usize {
    let end = from.min(text.len());
    text[0..end]
        .iter()
        .enumerate()
        .rev()
        .filter(|(_, byte)| begins_character(**byte))
        .take(columns)
        .last()
        .map_or(end, |(at, _)| at)
}

// The part of a line that is shown.
#[derive(Clone, Copy)]
struct Window {
    span: Span,
    // the columns before the caret
    before: usize,
    cut_before: bool,
    cut_after: bool,
}

// The part of the line around the byte `at`, which stands in this column.
fn window_around(text: &[u8], at: usize, column: usize) -> Window {
    let before = column.saturating_sub(1);
    let end = forward(text, at, WIDEST + 1);
    let after = columns(Span { start: at, end }.of(text));
    if before <= WIDEST && after <= WIDEST && before + after <= WIDEST {
        let start = back(text, at, before);
        return Window {
            span: Span { start, end },
            before,
            cut_before: false,
            cut_after: false,
        };
    }
    let kept = before.min(KEPT - after.min(KEPT / 2));
    let start = back(text, at, kept);
    let end = forward(text, at, KEPT - kept);
    Window {
        span: Span { start, end },
        before: kept,
        cut_before: kept < before,
        cut_after: after > KEPT - kept,
    }
}

// A tab is shown as one column.
fn visible(c: char) -> char {
    if c == '\t' { ' ' } else { shown(c) }
}

// A line with a caret below it.
#[derive(Clone, Copy)]
struct Pointed<'a> {
    line: &'a str,
    window: Window,
}

impl fmt::Display for Pointed<'_> {
    fn fmt<W: fmt::Write>(&self, f: &mut fmt::Formatter<W>) -> fmt::Result {
        let Window {
            span: _,
            before,
            cut_before,
            cut_after,
        } = self.window;
        let (dots, margin) = if cut_before { ("...", "   ") } else { ("", "") };
        f.write_str(dots)?;
        for c in self.line.chars() {
            f.write_char(visible(c))?;
        }
        f.write_str(if cut_after { "...\n" } else { "\n" })?;
        write!(f, "{margin}{:before$}^\n", "")
    }
}

// FILE:LINE:COLUMN: MESSAGE, then the line, and a caret below the column.
pub fn report<P: fmt::Display>(
    heap: Global,
    file: &str,
    text: &[u8],
    error: &Error<P>,
) -> Result<String, AllocError> {
    let window = window_around(text, error.at, error.column);
    let line = String::from_utf8_lossy(heap, window.span.of(text))?;
    let pointed = Pointed {
        line: line.as_str(),
        window,
    };
    format!(in heap; "{file}:{error}\n{pointed}")
}
