// What is still there of the first claim's cells and rows.
ghost use Rattle.std.specs.Prelude.{◌≤◌};

use crate::used::Used;
use linked::atoms::Live;
use linked::known::Known;

// Of these atoms the first `own` may be used, but for those that are used up already.
#[derive(Clone, Copy)]
pub struct Rest<'a> {
    pub live: &'a Live,
    pub own: usize,
    pub known: &'a Known,
    pub used: Used,
    ghost all: { own ≤ live.now.count },
}

// Where the way of a row doesn't go on, with what is still there then.
#[derive(Clone, Copy)]
pub struct DeadEnd<'a> {
    pub rest: Rest<'a>,
    pub at: u8,
}
