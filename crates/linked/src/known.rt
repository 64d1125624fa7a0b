// What is known of names: which are the same, and which are other.
ghost use Rattle.std.specs.Prelude.{◌≡◌, ℕ, ◌<◌, length, slice_index};
ghost use Rattle.linked.specs.Stands.{Falls, Loose, Mixed, root};

use crate::bits::NameSet;
use claims::Name;

// Known same: each name's entry is one that it is the same as, and the last on the way up stands for the class.
// Known other: for each name the set of those that it is other than.
// An array with a loop to the one that stands for a class, and bits of two words: a rule here (docs/DECISIONS.md, Forms).
// Names are numbers here, the indices of both arrays, and each use asks that they are below 64: a claim's `Name` has no limit of
// its own, so a type with the limit would be made by the same fact at each of these uses.
#[derive(Clone, Copy)]
pub struct Known {
    pub stands: [u8; 64],
    pub others: [NameSet; 64],
    ghost all: { length stands ≡ 64 },
    ghost rows: { length others ≡ 64 },
    ghost falls: { Falls stands },
    ghost closed: { (x y : ℕ) → Loose stands others x y → ⊥ },
    ghost clear: { (x y : ℕ) → Mixed stands others x y → ⊥ },
}

impl Known {
    // The name that stands for x.
    pub fn find(&self, x: u8) -> u8
        requires { x < 64 }
        ensures stands { result ≡ root self.now.stands x }
        ensures itself { slice_index self.now.stands result ≡ result }
        ensures below { result < 64 }
    {
        let mut at = x;
        while self.stands[at as usize] != at {
            at = self.stands[at as usize];
        }
        at
    }
}
