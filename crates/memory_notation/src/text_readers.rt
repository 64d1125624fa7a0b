// The cases of a text as any program reads them.
ghost use Rattle.memory_notation.specs.Reading.{WellRead, left as left_of};

use crate::cases::{Case, Cases};
use crate::problems::Problem;
use notation::{Error, TextReader};
use std::alloc::{AllocError, Global};

impl<'a> TextReader<'a> for Cases<'a> {
    type Item = Case<'a>;

    type Problem = Problem<'a>;

    ghost left = { left_of };

    ghost IsRead = { WellRead };

    fn open(text: &'a [u8]) -> Result<Cases<'a>, Error<Problem<'a>>> {
        Cases::new(text)
    }

    fn next_item(
        &mut self,
        heap: Global,
    ) -> Result<Option<Result<Case<'a>, Error<Problem<'a>>>>, AllocError> {
        self.next(heap)
    }
}
