// What is told of a question to people: how many names and parts it has, its normal form, and what was found out about its
// first claim.
#![tactic(auto)]

pub mod counts;
pub mod descriptions;
pub mod findings;

pub use counts::counted;
pub use descriptions::{Description, described};
pub use findings::found;
