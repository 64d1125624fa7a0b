// Where the reading of a text goes on. What is read, a question or another thing, begins with a word.
ghost use Rattle.std.specs.Prelude.{◌≡◌, ◌<◌, ◌≤◌, length, Ok, IfOk, OnOk, IfSome};

use crate::errors::Error;
use crate::places::Place;
use crate::problems::Problem;
use crate::scans::Scan;
use crate::spans::Span;
use crate::stops::{Fault, Stop};
use crate::tokens::{Kind, Token};
use std::alloc::AllocError;
use std::str::from_utf8;

// The most bytes of a text that is read.
pub const MOST_BYTES: usize = 3 * 1024 * 1024;

#[derive(Clone, Copy)]
pub struct Cursor<'a> {
    text: &'a [u8],
    // where the reading goes on
    at: usize,
    // where began what was read last
    place: Place,
}

impl<'a> Cursor<'a> {
    // Refuses what is too long to be read, or no text.
    pub fn new(text: &'a [u8]) -> Result<Cursor<'a>, Error<Problem<'a>>>
        ensures { IfOk result (λ cursor. cursor.text.now ≡ text.now) }
    {
        // some editors begin a text with this mark, which is no part of it
        let at = if text.starts_with(&[0xef, 0xbb, 0xbf]) {
            3
        } else {
            0
        };
        let place = Place::first(at);
        if text.len() > MOST_BYTES {
            return Err(Place::first(0).error(Problem::TooLong));
        }
        if let Err(e) = from_utf8(text) {
            let place = place.moved(text, e.valid_up_to());
            return Err(place.error(Problem::NotText));
        }
        Ok(Cursor { text, at, place })
    }

    // The line on which began what was read last.
    pub fn line(&self) -> usize
        ensures { result ≡ self.now.place.line }
    {
        self.place.line
    }

    // The text from its next word on, and that word, unless it is the end: what is read next begins there.
    pub fn begin(&mut self) -> Option<(Scan<'a>, Token)>
        ensures same { self.new.text.now ≡ self.old.text.now }
        ensures stays { self.new.at ≡ self.old.at }
        ensures scan { IfSome result (λ b. b.0.text.now ≡ self.old.text.now) }
        ensures on { IfSome result (λ b. (self.old.at < b.1.span.end) × (b.1.span.end ≤ length self.old.text.now)) }
    {
        let mut scan = Scan::new(self.text, self.at);
        scan.skip_lines();
        let first = scan.peek();
        if first.kind == Kind::End {
            return None;
        }
        self.place = self.place.moved(self.text, first.span.start);
        Some((scan, first))
    }

    // Goes on at the byte `at`, and behind the word in any case with which began what was read last.
    pub fn go_on(&mut self, first: Span, at: usize)
        ensures same { self.new.text.now ≡ self.old.text.now }
        ensures word { first.end ≤ self.new.at }
        ensures at { at ≤ self.new.at }
    {
        self.at = first.end.max(at);
    }

    // What was read up to `at` from the word `first` on, or the error in it: the reading goes on behind it, or where
    // `recovered` says for the byte of the fault.
    pub fn passed<T: Drop, P: Drop, F: FnOnce(usize) -> usize + Drop>(
        &mut self,
        first: Span,
        at: usize,
        read: Result<T, Stop<P>>,
        recovered: F,
    ) -> Result<Result<T, Error<P>>, AllocError>
        requires { F.IsAlwaysCallable recovered }
        ensures same { self.new.text.now ≡ self.old.text.now }
        ensures item { IfOk result (λ next. IfOk next (λ item. read ≡ Ok item)) }
        ensures word { OnOk result (first.end ≤ self.new.at) }
    {
        match read {
            Ok(item) => {
                self.go_on(first, at);
                Ok(Ok(item))
            }
            Err(Stop::Memory(e)) => Err(e),
            Err(Stop::Fault(fault)) => {
                self.go_on(first, recovered(fault.at));
                Ok(Err(self.error(fault)))
            }
        }
    }

    // A fault in what was read last, with its line and column.
    pub fn error<P>(&self, fault: Fault<P>) -> Error<P>
        ensures { result.problem ≡ fault.problem }
    {
        let Fault { at, problem } = fault;
        self.place.moved(self.text, at).error(problem)
    }
}
