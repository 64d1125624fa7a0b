// The faults that both forms of the notation share, and the names in them.
ghost use Rattle.std.specs.Prelude.{◌≡◌, Some, IsSome, OnOk};
ghost use Rattle.notation.specs.Steps.{Passes};
ghost use Rattle.notation.specs.Stops.{place_of};

use crate::drafts::Mention;
use crate::problems::{Expected, Found, Missing, Problem};
use crate::quotes::Quote;
use crate::scans::Scan;
use crate::spans::Span;
use crate::stops::Stop;
use crate::tokens::{Kind, Token};

impl<'a> Stop<Problem<'a>> {
    // `nothing` beside what the token begins.
    pub fn not_alone(token: Token) -> Stop<Problem<'a>>
        ensures { place_of result ≡ Some token.span.start }
    {
        Stop::at(token.span.start, Problem::NotAlone)
    }
}

impl<'a> Scan<'a> {
    fn quote(&self, span: Span) -> Quote<'a> {
        Quote::new(span.of(self.text))
    }

    // Something else was expected where the token stands, after what stands from `from` on.
    pub fn missing<E, P: From<Missing<'a, E>>>(
        &self,
        expected: E,
        from: usize,
        token: Token,
    ) -> Stop<P>
        ensures { IsSome (place_of result) }
    {
        let start = token.span.start;
        let word = self.quote(token.span);
        let (at, found) = match token.kind {
            Kind::Line => (self.last, Found::Line),
            Kind::End => (self.last, Found::End),
            Kind::Strange if word.is_control() => (start, Found::Control),
            Kind::Strange => (start, Found::Strange(word)),
            _ => (start, Found::Word(word)),
        };
        let before = self.quote(Span {
            start: from,
            end: self.last,
        });
        let missing = Missing {
            expected,
            before,
            found,
        };
        Stop::at(at, P::from(missing))
    }

    // A word of the notation where a name was expected.
    pub fn reserved(&self, from: usize, token: Token) -> Stop<Problem<'a>> {
        let before = self.quote(Span {
            start: from,
            end: self.last,
        });
        Stop::at(
            token.span.start,
            Problem::Reserved(self.quote(token.span), before),
        )
    }

    // What is wrong with a token that begins no part, where `expected` says what it may be.
    pub fn no_part<E: Drop, P: From<Missing<'a, E>> + From<Problem<'a>>>(
        &self,
        expected: E,
        token: Token,
    ) -> Stop<P>
        ensures { IsSome (place_of result) }
    {
        match token.kind {
            Kind::Name => self.unknown(token).told_as(),
            Kind::Nothing => Stop::not_alone(token).told_as(),
            _ => self.missing(expected, self.last, token),
        }
    }

    // A word that is none of the notation where a part was expected.
    pub fn unknown(&self, token: Token) -> Stop<Problem<'a>>
        ensures { place_of result ≡ Some token.span.start }
    {
        Stop::at(
            token.span.start,
            Problem::UnknownWord(self.quote(token.span)),
        )
    }

    // The next name, which follows on what stands from `from` on.
    pub fn mention(&mut self, from: usize) -> Result<Mention, Stop<Problem<'a>>>
        ensures { OnOk result (Passes self.old self.new) }
    {
        let before = *self;
        let token = self.take();
        if token.kind.is_reserved() {
            return Err(before.reserved(from, token));
        }
        match token.kind {
            Kind::Name => Ok(Mention::Name(token.span)),
            Kind::Nowhere => Ok(Mention::Nowhere),
            _ => Err(before.missing(Expected::Name, from, token)),
        }
    }
}
