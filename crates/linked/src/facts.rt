// Asking what is known of names, and learning that two are the same or other.
ghost use Rattle.std.specs.Prelude.{◌≡◌, ℕ, ◌<◌, length, Some, ◌≢◌, slice_index};
ghost use Rattle.claims.specs.Memory.{Names};
ghost use Rattle.linked.specs.Stands.{Added, Marked, root};
ghost use Rattle.linked.specs.Knowing.{Agrees, known_same, known_other, Joined, Parted, Closer, Fewer, NoMore};

use crate::bits::NameSet;
use crate::carries::{add, carry};
use crate::known::Known;
use std::array;

// Each name stands for itself.
fn each_itself() -> [u8; 64]
    ensures all { length result ≡ 64 }
    ensures itself { (x : ℕ) → x < 64 → slice_index result x ≡ x }
{
    array::from_fn(|x| x as u8)
}

// No name is other than another.
fn nobody() -> [NameSet; 64]
    ensures all { length result ≡ 64 }
    ensures none { (x y : ℕ) → x < 64 → Marked result x y → ⊥ }
{
    let empty = NameSet::new();
    [empty; 64]
}

impl Known {
    // Nothing is known.
    pub fn new() -> Known
        ensures { (n : Names) → Agrees result n }
    {
        let stands = each_itself();
        let others = nobody();
        Known { stands, others }
    }

    pub fn same(&self, x: u8, y: u8) -> bool
        requires x_small { x < 64 }
        requires y_small { y < 64 }
        ensures { result ≡ known_same self.now x y }
    {
        self.find(x) == self.find(y)
    }

    pub fn other(&self, x: u8, y: u8) -> bool
        requires x_small { x < 64 }
        requires y_small { y < 64 }
        ensures { result ≡ known_other self.now x y }
    {
        let a = self.find(x);
        let b = self.find(y);
        self.others[a as usize].has(b) || self.others[b as usize].has(a)
    }

    // What is known if a and b, which stand for themselves, are the same.
    fn put_below(&self, a: u8, b: u8) -> Known
        requires lower { a < b }
        requires small { b < 64 }
        requires a_itself { slice_index self.now.stands a ≡ a }
        requires b_itself { slice_index self.now.stands b ≡ b }
        requires a_b { Marked self.now.others a b → ⊥ }
        requires b_a { Marked self.now.others b a → ⊥ }
        ensures joined { Joined self.now a b (Some result) }
        ensures closer { Closer self.now result }
        ensures still_a { (x : ℕ) → x < 64 → root self.now.stands x ≡ a → root result.stands x ≡ a }
        ensures now_a { (x : ℕ) → x < 64 → root self.now.stands x ≡ b → root result.stands x ≡ a }
    {
        let mut stands = self.stands;
        stands[b as usize] = a;
        let others = carry(self.others, a, b);
        Known { stands, others }
    }

    // What is known if a and b are other.
    fn set_apart(&self, a: u8, b: u8) -> Known
        requires a_small { a < 64 }
        requires b_small { b < 64 }
        requires a_itself { slice_index self.now.stands a ≡ a }
        requires b_itself { slice_index self.now.stands b ≡ b }
        requires apart { a ≢ b }
        ensures stands { result.stands ≡ self.now.stands }
        ensures added { Added self.now.others a b result.others }
    {
        let stands = self.stands;
        let others = add(self.others, a, b);
        Known { stands, others }
    }

    // What is known if x and y are the same, unless they are known to be other.
    pub fn join(&self, x: u8, y: u8) -> Option<Known>
        requires x_small { x < 64 }
        requires y_small { y < 64 }
        ensures joined { Joined self.now x y result }
        ensures fewer { Fewer self.now x y result }
        ensures no_more { NoMore self.now result }
    {
        if self.other(x, y) {
            return None;
        }
        let a = self.find(x);
        let b = self.find(y);
        if a < b {
            Some(self.put_below(a, b))
        } else if b < a {
            Some(self.put_below(b, a))
        } else {
            Some(*self)
        }
    }

    // What is known if x and y are other, unless they are known to be the same.
    pub fn part(&self, x: u8, y: u8) -> Option<Known>
        requires x_small { x < 64 }
        requires y_small { y < 64 }
        ensures parted { Parted self.now x y result }
        ensures fewer { Fewer self.now x y result }
    {
        let a = self.find(x);
        let b = self.find(y);
        if a == b {
            return None;
        }
        Some(self.set_apart(a, b))
    }
}
