// What is left of a part when the wanted atoms that are found are taken out, with what they are made of.
ghost use Rattle.matching.specs.Parting.{Renamed, Cancelled};

use crate::dividing::{append, divide, renamed};
use crate::parts::Part;
use crate::rests::Rest;
use linked::atoms::Live;
use linked::known::Known;

impl Part {
    // The part by the names that stand for all of its names, and without rows that are known to be empty.
    pub fn renamed(&self, known: &Known) -> Part
        ensures { Renamed known.now self.now result }
    {
        let own = renamed(&self.own, known);
        let others = renamed(&self.others, known);
        let wanted = renamed(&self.wanted, known);
        Part {
            own,
            others,
            wanted,
        }
    }

    // Without the wanted atoms that are found, and without what they are made of.
    pub fn cancelled(&self, known: &Known) -> Part
        ensures { Cancelled known.now self.now result }
    {
        let whole = self.whole();
        let mut rest = Rest::new(&whole, self.own.count, known);
        let mut wanted = Live::new();
        for atom in self.wanted.as_slice() {
            match rest.without_atom(*atom) {
                Some(less) => rest = less,
                None => wanted = wanted.with(*atom),
            }
        }
        let (own, gone) = divide(&self.own, &rest.used);
        let others = append(&self.others, &gone);
        Part {
            own,
            others,
            wanted,
        }
    }
}
