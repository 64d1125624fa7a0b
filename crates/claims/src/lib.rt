// Claims about linked cells: what they are made of, and their words.
//
// A claim (a symbolic heap) says which names stand for the same place, and which cells and rows of cells
// a memory consists of. A question asks whether one claim says another. `decode_question` takes words apart into
// a question, `read` tells how they are laid out, and `Question::words` puts a question's words together.
#![tactic(auto)]

pub mod decoded;
pub mod decoding;
pub mod layouts;
pub mod names;
pub mod part;
pub mod parts;
pub mod questions;
pub mod shapes;
#[cfg(test)]
mod tests;

pub use decoded::{Decoded, DecodedQuestion};
pub use decoding::{decode, decode_question};
pub use layouts::{Layout, read};
pub use names::{Name, Place};
pub use part::Part;
pub use parts::{Atom, Pure};
pub use questions::{Claim, Question};
pub use shapes::Shape;
