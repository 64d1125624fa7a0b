// Choosing two names to go on with: once as the same, and once as other.
ghost use Rattle.std.specs.Prelude.{◌≡◌, ◌<◌, ◌≤◌, true, IfSome};
ghost use Rattle.linked.specs.Knowing.{undecided};
ghost use Rattle.entails.specs.Searching.{Chosen, IsOpen, OpenWith};

use crate::recents::Recent;
use linked::known::Known;

// Is it not known whether x and y are the same?
pub fn is_open(known: &Known, x: u8, y: u8) -> bool
    requires x_small { x < 64 }
    requires y_small { y < 64 }
    ensures { result ≡ undecided known.now x y }
{
    !known.same(x, y) && !known.other(x, y)
}

// The same of a pair, if there are such names.
pub fn is_open_pair(known: &Known, pair: (u8, u8)) -> bool
    ensures { result ≡ true → IsOpen known.now pair.0 pair.1 }
{
    let (x, y) = pair;
    x < 64 && y < 64 && is_open(known, x, y)
}

// A pair that lately had a side that couldn't be, and of which it isn't known.
fn lately(known: &Known, recent: &Recent) -> Option<(u8, u8)>
    ensures { IfSome result (λ pair. IsOpen known.now pair.0 pair.1) }
{
    recent
        .pairs
        .iter()
        .copied()
        .flatten()
        .find(|pair| is_open_pair(known, *pair))
}

// A name below `names` of which it isn't known whether it is the same as x.
fn open_with(known: &Known, x: u8, names: u8) -> Option<u8>
    requires small { x < 64 }
    requires few { names ≤ 64 }
    ensures { OpenWith known.now x names result }
{
    (0..names).find(|y| is_open(known, x, *y))
}

// Two names of which it isn't known; none, if all is known of the first `names`.
fn any_open(known: &Known, names: u8) -> Option<(u8, u8)>
    requires { names ≤ 64 }
    ensures { Chosen known.now names result }
{
    (0..names).find_map(|x| open_with(known, x, names).map(|y| (x, y)))
}

// Two names of which it isn't known: as lately, or as wished for, or any; none, if all is known.
pub fn choose(known: &Known, names: u8, recent: &Recent, wish: Option<(u8, u8)>) -> Option<(u8, u8)>
    requires { names ≤ 64 }
    ensures { Chosen known.now names result }
{
    lately(known, recent)
        .or(wish.filter(|pair| is_open_pair(known, *pair)))
        .or_else(|| any_open(known, names))
}
