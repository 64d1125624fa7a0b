// Short pieces of a text, to be shown in a message.
ghost use Rattle.std.specs.Prelude.{◌≤◌, length};

use crate::characters::{begins_character, shown};
use std::fmt;
use std::str::from_utf8;

// What a message shows of a text, and whether the rest was cut off.
#[derive(Clone, Copy)]
pub struct Excerpt<'a> {
    text: &'a str,
    cut: bool,
}

// An excerpt between quotation marks.
#[derive(Clone, Copy)]
pub struct Quote<'a>(Excerpt<'a>);

const LONGEST: usize = 40;

// The last place up to `at` that no character of the bytes lies across.
pub fn boundary(bytes: &[u8], at: usize) -> usize
    ensures { result ≤ at }
{
    if at >= bytes.len() {
        return at;
    }
    bytes[0..=at]
        .iter()
        .rposition(|byte| begins_character(*byte))
        .unwrap_or(0)
}

impl<'a> Excerpt<'a> {
    pub fn new(bytes: &'a [u8]) -> Excerpt<'a>
        ensures { length result.text.now ≤ 40 }
    {
        let cut = bytes.len() > LONGEST;
        let end = if cut {
            boundary(bytes, LONGEST)
        } else {
            bytes.len()
        };
        let text = from_utf8(&bytes[0..end]).unwrap_or("?");
        Excerpt { text, cut }
    }
}

impl<'a> Quote<'a> {
    pub fn new(bytes: &'a [u8]) -> Quote<'a> {
        Quote(Excerpt::new(bytes))
    }

    // Does it begin with a control character?
    pub fn is_control(&self) -> bool {
        self.0.text.chars().next().is_some_and(|c| c.is_control())
    }

    pub fn is_empty(&self) -> bool {
        self.0.text.is_empty()
    }
}

impl fmt::Display for Excerpt<'_> {
    fn fmt<W: fmt::Write>(&self, f: &mut fmt::Formatter<W>) -> fmt::Result {
        for c in self.text.chars() {
            f.write_char(shown(c))?;
        }
        f.write_str(if self.cut { "..." } else { "" })
    }
}

impl fmt::Display for Quote<'_> {
    fn fmt<W: fmt::Write>(&self, f: &mut fmt::Formatter<W>) -> fmt::Result {
        write!(f, "`{}`", self.0)
    }
}
