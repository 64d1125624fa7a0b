// The form of a question that the field uses, on one line: terms `|-` terms, with `*` between the terms.
ghost use Rattle.std.specs.Prelude.{◌≡◌, OnOk};
ghost use Rattle.notation.specs.Steps.{Goes, Passes};

use crate::drafts::{Draft, Mention, Pair, Part, Relation, Side};
use crate::problems::{Expected, Problem};
use crate::scans::Scan;
use crate::stops::Stop;
use crate::tokens::Kind;
use std::alloc::Global;

impl<'a> Scan<'a> {
    // Takes the sign, which follows on what stands from `from` on.
    fn sign(&mut self, kind: Kind, expected: Expected, from: usize) -> Result<(), Stop<Problem<'a>>>
        ensures { OnOk result (Goes self.old self.new) }
    {
        let before = *self;
        let token = self.take();
        if token.kind == kind {
            Ok(())
        } else {
            Err(before.missing(expected, from, token))
        }
    }

    // What stands after an `ls` that begins at `from`.
    fn row_ends(&mut self, from: usize) -> Result<Part, Stop<Problem<'a>>>
        ensures { OnOk result (Goes self.old self.new) }
    {
        self.sign(Kind::Open, Expected::Open, from)?;
        let left = self.mention(from)?;
        self.sign(Kind::Comma, Expected::Comma, from)?;
        let right = self.mention(from)?;
        self.sign(Kind::Close, Expected::Close, from)?;
        Ok(Part {
            relation: Relation::Row,
            pair: Pair { left, right },
        })
    }

    // What stands after a name that begins at `from`.
    fn relation(&mut self, left: Mention, from: usize) -> Result<Part, Stop<Problem<'a>>>
        ensures { OnOk result (Goes self.old self.new) }
    {
        let before = *self;
        let token = self.take();
        let relation = match token.kind {
            Kind::Equals => Relation::Same,
            Kind::Differs => Relation::Other,
            Kind::Arrow => Relation::Cell,
            _ => return Err(before.missing(Expected::Relation, from, token)),
        };
        let right = self.mention(from)?;
        let pair = Pair { left, right };
        Ok(Part { relation, pair })
    }

    // A term, which is no part at all if it is `emp`.
    fn term(&mut self) -> Result<Option<Part>, Stop<Problem<'a>>>
        ensures { OnOk result (Passes self.old self.new) }
    {
        let before = *self;
        let token = self.take();
        let from = token.span.start;
        match token.kind {
            Kind::Emp => Ok(None),
            Kind::Ls => Ok(Some(self.row_ends(from)?)),
            Kind::Name => Ok(Some(self.relation(Mention::Name(token.span), from)?)),
            Kind::Nowhere => Ok(Some(self.relation(Mention::Nowhere, from)?)),
            _ if token.kind.is_reserved() => Err(before.reserved(before.last, token)),
            _ => Err(before.missing(Expected::Term, before.last, token)),
        }
    }

    fn terms(&mut self, heap: Global, side: Side) -> Result<Draft, Stop<Problem<'a>>>
        ensures { OnOk result (Goes self.old self.new) }
    {
        let mut draft = Draft::new(heap);
        loop {
            let from = self.peek().span.start;
            if let Some(part) = self.term()? {
                draft.add(part, from)?;
            }
            let before = *self;
            let token = self.take();
            match (token.kind, side) {
                (Kind::Star, _) => {}
                (Kind::Entails, Side::First) => return Ok(draft),
                (Kind::Line | Kind::End, Side::Second) => return Ok(draft),
                (_, Side::First) => return Err(before.missing(
                    Expected::StarOrEntails,
                    from,
                    token,
                )),
                (_, Side::Second) => return Err(before.missing(Expected::StarOrLine, from, token)),
            }
        }
    }

    // The two claims of a question on one line.
    pub fn line_form(&mut self, heap: Global) -> Result<(Draft, Draft), Stop<Problem<'a>>>
        ensures { OnOk result (Goes self.old self.new) }
    {
        let first = self.terms(heap, Side::First)?;
        let second = self.terms(heap, Side::Second)?;
        Ok((first, second))
    }
}
