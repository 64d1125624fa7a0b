// Names, and the places that they stand for.
ghost use Rattle.std.specs.Prelude.{◌≡◌, ◌<◌};
ghost use Rattle.std.specs.Option.{SomeIff, option_map};

use std::fmt;

// A name (variable) by its number. Name 0 is nowhere (nil).
#[derive(Clone, Copy, Debug, PartialEq, Eq)]
pub struct Name(pub u8);

impl Name {
    // The name of this number, if it is below `names`.
    pub fn below(number: u32, names: u8) -> Option<Name>
        ensures { SomeIff (option_map (λ x. x.0) result) (number < names) number }
    {
        // a branch and no `then_some`, since the cast is sound only behind the comparison
        if number < u32::from(names) {
            Some(Name(number as u8))
        } else {
            None
        }
    }
}

// A place in memory (location), from 1. Place 0 is nowhere.
#[derive(Clone, Copy, Debug, PartialEq, Eq)]
pub struct Place(pub u32);

// As people read it: its number, or `nowhere`.
impl fmt::Display for Place {
    fn fmt<W: fmt::Write>(&self, f: &mut fmt::Formatter<W>) -> fmt::Result {
        match self.0 {
            0 => f.write_str("nowhere"),
            number => write!(f, "{number}"),
        }
    }
}
