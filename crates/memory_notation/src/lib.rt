// A text notation for a claim and a memory: read them from a file, with errors that say where and what, and
// tell whether the claim holds of the memory, or why not.
//
// `Cases` gives the cases of a text one after another, each a claim and a memory. `judge` answers
// one, and `report` makes an error into lines for people.
#![tactic(auto)]

pub mod answers;
pub mod cases;
pub mod claim_texts;
pub mod entries;
pub mod items;
pub mod memory_texts;
pub mod problems;
pub mod sentences;
pub mod stops;
mod text_readers;

pub use answers::{Answer, judge};
pub use cases::{Case, Cases};
pub use notation::report;
pub use problems::{Error, Problem};
