// Does one claim say another?
//
// `decide` reads words as a question (`reading`) and settles it (`settling`): the `search` takes a part of the question, has it
// reduced by what is known of names (`reducing`), tries memories that a failed match points at (`showing`, `trials`), and else
// goes on with both sides of a pair of names (`sides`). Which memory and which pair, is a matter of speed (`wishing`,
// `choosing`, `recents`). Where all is known of the names, few memories tell exactly (`exact`). A memory that is told is
// made small (`shrinking`).
#![tactic(auto)]

pub mod choosing;
pub mod deciding;
pub mod exact;
pub mod exports;
pub mod goals;
pub mod pures;
pub mod reading;
pub mod recents;
pub mod reducing;
pub mod search;
pub mod settling;
pub mod showing;
pub mod shrinking;
pub mod sides;
pub mod stretches;
pub mod telling;
pub mod told;
pub mod trials;
pub mod wishes;
pub mod wishing;

pub use deciding::{Decided, decide};
