// What the programs share at their doors: arguments in, texts in, messages out.
#![tactic(auto)]

pub mod commands;
pub mod inputs;
pub mod programs;
pub mod sources;

pub use commands::Command;
pub use inputs::{Unread, load, load_named};
pub use programs::{Program, run};
pub use sources::Source;
