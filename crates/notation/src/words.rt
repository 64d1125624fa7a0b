// The word form of a question: `if` parts `then` parts, with a part on a line or commas between.
ghost use Rattle.std.specs.Prelude.{◌≡◌, OnOk};
ghost use Rattle.notation.specs.Steps.{Goes, Passes};

use crate::drafts::{Draft, Pair, Part, Side};
use crate::problems::{Expected, Problem};
use crate::scans::Scan;
use crate::stops::Stop;
use crate::tokens::Kind;
use std::alloc::Global;

impl<'a> Scan<'a> {
    // A part, of which `expected` says what it may be.
    fn part(&mut self, expected: Expected) -> Result<Part, Stop<Problem<'a>>>
        ensures { OnOk result (Passes self.old self.new) }
    {
        let before = *self;
        let token = self.take();
        let Kind::Relation(relation) = token.kind else {
            return Err(before.no_part(expected, token));
        };
        let from = token.span.start;
        let left = self.mention(from)?;
        let right = self.mention(from)?;
        let pair = Pair { left, right };
        Ok(Part { relation, pair })
    }

    // Does the line that begins here go on with the claim? A question on one line may follow on the second claim.
    fn line_goes_on(&self, side: Side) -> Result<bool, Stop<Problem<'a>>> {
        let token = self.peek();
        match token.kind {
            Kind::Relation(_) => Ok(true),
            Kind::If | Kind::Then | Kind::End => Ok(false),
            Kind::Nothing => Err(Stop::not_alone(token)),
            _ if side == Side::Second && self.sees_entails() => Ok(false),
            _ => Err(self.no_part(Expected::Part, token)),
        }
    }

    // Does the claim go on after a part that begins at `from`? Then what lies between the parts is taken.
    fn goes_on(&mut self, side: Side, from: usize) -> Result<bool, Stop<Problem<'a>>>
        ensures { OnOk result (Goes self.old self.new) }
    {
        let token = self.peek();
        match token.kind {
            Kind::Comma => {
                self.take();
                self.skip_lines();
                Ok(true)
            }
            Kind::Line => {
                self.skip_lines();
                self.line_goes_on(side)
            }
            Kind::If | Kind::Then | Kind::End => Ok(false),
            _ => Err(self.missing(Expected::CommaOrLine, from, token)),
        }
    }

    // `nothing`, alone.
    fn no_parts(&mut self, side: Side) -> Result<(), Stop<Problem<'a>>>
        ensures { OnOk result (Goes self.old self.new) }
    {
        let from = self.take().span.start;
        if self.goes_on(side, from)? {
            return Err(Stop::not_alone(self.peek()));
        }
        Ok(())
    }

    fn claim(&mut self, heap: Global, side: Side) -> Result<Draft, Stop<Problem<'a>>>
        ensures { OnOk result (Goes self.old self.new) }
    {
        let mut draft = Draft::new(heap);
        self.skip_lines();
        if self.peek().kind == Kind::Nothing {
            self.no_parts(side)?;
            return Ok(draft);
        }
        let mut expected = Expected::PartOrNothing;
        loop {
            let from = self.peek().span.start;
            draft.add(self.part(expected)?, from)?;
            if !self.goes_on(side, from)? {
                return Ok(draft);
            }
            expected = Expected::Part;
        }
    }

    // The two claims of a question that begins with `if`.
    pub fn word_form(&mut self, heap: Global) -> Result<(Draft, Draft), Stop<Problem<'a>>>
        ensures { OnOk result (Goes self.old self.new) }
    {
        self.take();
        let first = self.claim(heap, Side::First)?;
        let before = *self;
        let token = self.take();
        if token.kind != Kind::Then {
            return Err(before.missing(Expected::Then, before.last, token));
        }
        let second = self.claim(heap, Side::Second)?;
        let token = self.peek();
        if token.kind == Kind::Then {
            return Err(self.missing(Expected::PartOrQuestion, self.last, token));
        }
        Ok((first, second))
    }
}
