// Using up the first claim's cells and rows for those of the second.
ghost use Rattle.std.specs.Prelude.{◌≡◌, ℕ, ◌<◌, ◌≤◌, slice_index_or, slice_set, false, true};
ghost use Rattle.matching.specs.Using.{IsFree, LeftOf};

use crate::rests::Rest;
use crate::used::Used;
use linked::atoms::Live;
use linked::known::Known;

impl Used {
    // Nothing is used.
    pub fn new() -> Used
        ensures { (i : ℕ) → i < 64 → IsFree result i }
    {
        Used { marks: [false; 64] }
    }

    pub fn has(&self, i: usize) -> bool
        requires { i < 64 }
        ensures { result ≡ slice_index_or self.now.marks i false }
    {
        self.marks[i]
    }

    // One more is used.
    pub fn add(&mut self, i: usize)
        requires { i < 64 }
        ensures { self.new.marks ≡ slice_set self.old.marks i true }
    {
        self.marks[i] = true;
    }

    // Are the first of them all used?
    pub fn covers(&self, count: usize) -> bool
        requires { count ≤ 64 }
        ensures { result ≡ true → (i : ℕ) → i < count → IsFree self.now i → ⊥ }
    {
        // a loop, since a proof finds its way through it by an invariant, and not through `all` over numbers
        for i in 0..count {
            if !self.has(i) {
                return false;
            }
        }
        true
    }
}

impl<'a> Rest<'a> {
    // Of these atoms the first `own` may be used, and all of them are still there.
    pub fn new(live: &'a Live, own: usize, known: &'a Known) -> Rest<'a>
        requires { own ≤ live.now.count }
        ensures live { result.live.now ≡ live.now }
        ensures own { result.own ≡ own }
        ensures known { result.known.now ≡ known.now }
        ensures free { (i : ℕ) → i < 64 → IsFree result.used i }
    {
        Rest {
            live,
            own,
            known,
            used: Used::new(),
        }
    }

    // What is left when the atom number e is used as well.
    pub fn without(&self, e: usize) -> Rest<'a>
        requires { e < 64 }
        ensures of { LeftOf self.now result }
        ensures used { result.used.marks ≡ slice_set self.now.used.marks e true }
    {
        let mut used = self.used;
        used.add(e);
        Rest {
            live: self.live,
            own: self.own,
            known: self.known,
            used,
        }
    }
}
