// The search: what is known of names grows, till all is settled or a memory is against it.
//
// Take out what is found, and go through parts that have nothing to do with each other one by one; try
// the memories that a failed match points at; and else go on with two names, once as the same and once as other. Both are
// always gone through, with what can be drawn then, so that it matters only for speed which two they are.
ghost use Rattle.std.specs.Prelude.{◌≤◌, length};
ghost use Rattle.entails.specs.Reducing.{PartOf};
ghost use Rattle.entails.specs.Searching.{Searched};

use crate::choosing::choose;
use crate::goals::Goal;
use crate::recents::Recent;
use crate::reducing::{Reduced, reduce};
use crate::sides::side;
use crate::stretches::Trial;
use crate::wishing::wish;
use claims::{Name, Pure};
use linked::known::Known;
use matching::parts::Part;

impl Goal {
    // Wherever names agree with what is known: is the part of the question settled, or is there a memory against the question?
    pub fn search(
        &self,
        mut known: Known,
        mut part: Part,
        recent: &mut Recent,
        marks: &mut [u32],
    ) -> Result<(), Trial>
        requires room { 128 ≤ length marks.old }
        requires part_of { PartOf self.now known part }
        ensures { Searched self.now known part result }
    {
        'others: loop {
            match reduce(self, &part, &known) {
                Reduced::Done => return Ok(()),
                Reduced::Split(one, rest) => {
                    self.search(known, one, recent, marks)?;
                    part = rest;
                    continue 'others;
                }
                Reduced::Left(left) => {
                    let wish = wish(self.names, self.second.pures(), &left, &known);
                    self.show(&known, wish.detour, marks)?;
                    let Some((x, y)) = choose(&known, self.names, recent, wish.pair) else {
                        return self.try_all(&known, marks);
                    };
                    let (x, y) = (Name(x), Name(y));
                    match side(&left, &known, Pure::Same(x, y)) {
                        Some(same) => self.search(same, left, recent, marks)?,
                        None => recent.note(x.0, y.0),
                    }
                    let Some(other) = side(&left, &known, Pure::Other(x, y)) else {
                        recent.note(x.0, y.0);
                        return Ok(());
                    };
                    known = other;
                    part = left;
                }
            }
        }
    }
}
