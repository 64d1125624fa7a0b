// Finding the second claim of a question in what is known of the first.
//
// `specs/Rules` has the rules by which it may be said that a second claim follows. A part of a question (`parts`) is settled by
// them step by step: `drawing` draws what must be, `walking` finds a cell or row of the second claim among the first's,
// `cancelling` takes out all that is found, and `cutting` cuts what is left into parts that share no name.
#![tactic(auto)]

pub mod cancelling;
pub mod cutting;
pub mod dividing;
pub mod drawing;
pub mod parts;
pub mod rests;
pub mod steps;
pub mod used;
pub mod using;
pub mod walking;
pub mod ways;
