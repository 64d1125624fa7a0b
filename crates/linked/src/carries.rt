// Othernesses, when two classes of names become one: three steps on the array as it stands in what is known. A struct of its own
// would be taken out of there and put back for each.
ghost use Rattle.std.specs.Prelude.{◌≡◌, ℕ, ◌<◌, length};
ghost use Rattle.linked.specs.Stands.{Added, Carried, Columned};

use crate::bits::NameSet;

// Whoever is other than b is other than a too.
fn columns(mut others: [NameSet; 64], a: u8, b: u8) -> [NameSet; 64]
    requires a_small { a < 64 }
    requires b_small { b < 64 }
    ensures { Columned others a b 64 result }
{
    // by number: of what is written through `iter_mut` a proof knows nothing after the loop
    for x in 0..64usize {
        let row = others[x];
        if row.has(b) {
            others[x] = row.with(a);
        }
    }
    others
}

// What is known other of b is known of a as well, both ways.
pub fn carry(others: [NameSet; 64], a: u8, b: u8) -> [NameSet; 64]
    requires a_small { a < 64 }
    requires b_small { b < 64 }
    ensures { Carried others a b result }
{
    let mut all = columns(others, a, b);
    let joined = all[a as usize].union(all[b as usize]);
    all[a as usize] = joined;
    all
}

// One more otherness.
pub fn add(mut others: [NameSet; 64], a: u8, b: u8) -> [NameSet; 64]
    requires a_small { a < 64 }
    requires b_small { b < 64 }
    ensures { Added others a b result }
{
    let row = others[a as usize].with(b);
    others[a as usize] = row;
    others
}
