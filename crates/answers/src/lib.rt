// Answers to questions, and how they are told to people.
//
// `ask` tells whether the second claim of a question follows from the first, with an instance that shows it where it doesn't.
// `page` makes text of that, of the question, and of what must be so of its first claim.
#![tactic(auto)]

pub mod asking;
pub mod instances;
pub mod lending;
pub mod memories;
pub mod pages;
pub mod tallies;

pub use asking::{Answer, ask};
pub use instances::Instance;
pub use lending::Lent;
pub use pages::page;
pub use tallies::Tally;
