// What reads a text: it gives what stands there, one item after another. An error in one of them does not lose the others.
ghost use Rattle.std.specs.Prelude.{ℕ, ◌<◌, IfOk, IfSome, OnSome};
ghost use Rattle.claims.specs.Meaning.{question_of};
ghost use Rattle.claims.specs.Words.{Limits};
ghost use Rattle.notation.specs.Reading.{left as left_of};

use crate::errors::Error;
use crate::numbering::Asked;
use crate::problems::Problem;
use crate::readers::Reader;
use std::alloc::{AllocError, Global};
use std::fmt;

pub trait TextReader<'a>: Sized {
    type Item: Drop;

    // What can be wrong with an item.
    type Problem: fmt::Display + Drop;

    // how much of the text is left
    ghost left: { Self → ℕ };

    // what is so of each item that is read
    ghost IsRead: { Self.Item → Type 0 };

    // Refuses what has no items at all.
    fn open(text: &'a [u8]) -> Result<Self, Error<Self::Problem>>;

    // The next item or the error in it, or `None` at the end of the text.
    fn next_item(
        &mut self,
        heap: Global,
    ) -> Result<Option<Result<Self::Item, Error<Self::Problem>>>, AllocError>
        ensures read { IfOk result (λ next. IfSome next (λ item. IfOk item IsRead)) }
        ensures nearer { IfOk result (λ next. OnSome next (left self.new < left self.old)) };
}

impl<'a> TextReader<'a> for Reader<'a> {
    type Item = Asked<'a>;

    type Problem = Problem<'a>;

    ghost left = { left_of };

    ghost IsRead = { λ a. Limits (question_of a.question) };

    fn open(text: &'a [u8]) -> Result<Reader<'a>, Error<Problem<'a>>> {
        Reader::new(text)
    }

    fn next_item(
        &mut self,
        heap: Global,
    ) -> Result<Option<Result<Asked<'a>, Error<Problem<'a>>>>, AllocError> {
        self.next(heap)
    }
}
