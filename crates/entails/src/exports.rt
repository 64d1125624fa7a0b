// The call for C and Rust.
ghost use Rattle.std.specs.Prelude.{◌≡◌, length};
ghost use Rattle.entails.specs.Exporting.{Exported, as_numbers};

use crate::deciding::{Decided, decide};

// The answer as numbers: 0 follows, 1 fails (with how many cells), 2 out is too full to tell why it fails, 3 the words are
// no question, 4 too few words are lent. C takes no enum with data.
#[repr(C)]
#[derive(Clone, Copy)]
pub struct Answer {
    pub kind: u32,
    pub cells: u64,
}

impl From<Decided> for Answer {
    ghost from_gives = { λ decided answer. answer ≡ as_numbers decided };

    fn from(decided: Decided) -> Answer {
        let (kind, cells) = match decided {
            Decided::Follows => (0, 0),
            Decided::Fails(cells) => (1, cells as u64),
            Decided::OutFull => (2, 0),
            Decided::NoClaims => (3, 0),
            Decided::Few => (4, 0),
        };
        Answer { kind, cells }
    }
}

// `decide`, with each slice as a pointer and how many words it has.
#[unsafe(no_mangle)]
pub extern "C" fn linked_decide_words(words: &[u32], out: &mut [u32], work: &mut [u32]) -> Answer
    ensures { Exported words.now (length work.old) out.old out.new result }
{
    Answer::from(decide(words, out, work))
}
