// The questions of a text, one after another. An error in one of them does not lose the others.
ghost use Rattle.std.specs.Prelude.{◌≡◌, IfOk};
ghost use Rattle.notation.specs.Reading.{Asks, Gives, Advances};

use crate::characters::{ends_line, is_blank};
use crate::cursors::Cursor;
use crate::errors::Error;
use crate::numbering::{Asked, numbered};
use crate::problems::{Expected, Problem};
use crate::scans::Scan;
use crate::stops::Stop;
use crate::tokens::Kind;
use std::alloc::{AllocError, Global};

#[derive(Clone, Copy)]
pub struct Reader<'a> {
    cursor: Cursor<'a>,
}

impl<'a> Scan<'a> {
    // The question that begins here.
    fn question(&mut self, heap: Global, line: usize) -> Result<Asked<'a>, Stop<Problem<'a>>>
        ensures { IfOk result (Asks self.old.text.now) }
    {
        let text = self.text;
        let token = self.peek();
        let (first, second) = match token.kind {
            Kind::If => self.word_form(heap)?,
            Kind::Name | Kind::Nowhere | Kind::Emp | Kind::Ls => self.line_form(heap)?,
            _ if self.sees_entails() => self.line_form(heap)?,
            _ => return Err(self.missing(Expected::Question, self.last, token)),
        };
        numbered(heap, text, line, &first, &second)
    }

    // Are there only blanks before this place on its line?
    fn begins_line(&self) -> bool {
        self.text[0..self.at]
            .iter()
            .rev()
            .find(|byte| !is_blank(**byte))
            .is_none_or(|byte| ends_line(*byte))
    }

    // The beginning of the next line.
    fn next_line(mut self) -> Scan<'a> {
        while !matches!(self.take().kind, Kind::Line | Kind::End) {}
        self
    }

    // Where the reading goes on after a fault: at the next `if`, or at the beginning of the next line that has a
    // `|-`, whichever comes first.
    fn recovered(mut self) -> usize {
        let mut line = self.begins_line().then_some(self.at);
        loop {
            let token = self.take();
            match (token.kind, line) {
                (Kind::If | Kind::End, _) => return token.span.start,
                (Kind::Entails, Some(start)) => return start,
                (Kind::Line, _) => line = Some(self.at),
                _ => {}
            }
        }
    }

    // The same for a fault in a question that begins with a token of this kind. A question on one line ends with
    // its line.
    fn recovered_from(self, kind: Kind) -> usize {
        match kind {
            Kind::If => self.recovered(),
            _ => self.next_line().recovered(),
        }
    }
}

impl<'a> Reader<'a> {
    // Refuses what is too long to be read, or no text.
    pub fn new(text: &'a [u8]) -> Result<Reader<'a>, Error<Problem<'a>>>
        ensures { IfOk result (λ reader. reader.cursor.text.now ≡ text.now) }
    {
        let cursor = Cursor::new(text)?;
        Ok(Reader { cursor })
    }

    // The next question or the error in it, or `None` at the end of the text.
    pub fn next(
        &mut self,
        heap: Global,
    ) -> Result<Option<Result<Asked<'a>, Error<Problem<'a>>>>, AllocError>
        ensures same { self.new.cursor.text.now ≡ self.old.cursor.text.now }
        ensures gives { Gives self.old.cursor.text.now result }
        ensures advances { Advances self.old result self.new }
    {
        let Some((mut scan, first)) = self.cursor.begin() else {
            return Ok(None);
        };
        let text = scan.text;
        let read = scan.question(heap, self.cursor.line());
        let next = self.cursor.passed(first.span, scan.at, read, |at| {
            Scan::new(text, at).recovered_from(first.kind)
        })?;
        Ok(Some(next))
    }
}
