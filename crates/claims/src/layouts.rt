// Reading words as a question: where its parts lie.
//
// The words are how many names there are; and then for each of the two claims how many same and other it
// has, how many cells and rows, and these, with three words each. Nothing stands after that.
ghost use Rattle.std.specs.Prelude.{◌+◌, ◌*◌, ◌≤◌, length, IfSome};
ghost use Rattle.claims.specs.Reading.{ClaimRead, ReadPost};

use crate::decoding::{decode, decode_question};
use crate::shapes::Shape;

pub const MOST_NAMES: u32 = 64;

pub const MOST_PURES: u32 = 256;

pub const MOST_ATOMS: u32 = 64;

// A question's number of names, and the shapes of its claims.
#[derive(Clone, Copy, Debug, PartialEq, Eq)]
pub struct Layout {
    pub names: u8,
    pub first: Shape,
    pub second: Shape,
}

// The shape of the claim that the words begin with.
pub fn read_claim(words: &[u32], names: u8) -> Option<Shape>
    ensures reads { ClaimRead words.now names result }
    ensures room { IfSome result (λ l. 2 + 3 * (l.pures + l.atoms) ≤ length words.now) }
{
    decode(words, names).map(|claim| claim.shape)
}

// The layout of the question that the words are, or none if they are no question.
pub fn read(words: &[u32]) -> Option<Layout>
    ensures { ReadPost words.now result }
{
    let question = decode_question(words)?;
    Some(Layout {
        names: question.names,
        first: question.first.shape,
        second: question.second.shape,
    })
}
