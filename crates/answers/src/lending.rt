// The words that the search for an answer works with.
ghost use Rattle.std.specs.Prelude.{◌≤◌, vec_len};

use entails::deciding::LENT;
use std::alloc::{AllocError, Global};

// As many words as `entails::decide` asks for. They are made once, and lent for one question after another.
#[derive(Drop)]
pub struct Lent {
    pub words: Vec<u32>,
    ghost enough: { 65536 ≤ vec_len words },
}

impl Lent {
    pub fn new(heap: Global) -> Result<Lent, AllocError> {
        let words = vec![in heap; 0; LENT]?;
        Ok(Lent { words })
    }
}
