// Reading a whole text, up to a limit: a longer one is refused and never held.
ghost use Rattle.std.specs.Prelude.{◌≤◌, IfOk, vec_len};

use std::alloc::{AllocError, Global};
use std::fs::File;
use std::io::Read;
use std::{fmt, io};

// Why there is no text.
#[derive(Debug, Drop)]
pub enum Unread {
    // it has more bytes than this
    TooLarge(usize),
    Failed(io::Error),
}

impl From<io::Error> for Unread {
    fn from(e: io::Error) -> Unread {
        Unread::Failed(e)
    }
}

impl From<AllocError> for Unread {
    fn from(e: AllocError) -> Unread {
        Unread::Failed(io::Error::from(e))
    }
}

impl fmt::Display for Unread {
    fn fmt<W: fmt::Write>(&self, f: &mut fmt::Formatter<W>) -> fmt::Result {
        match self {
            Unread::TooLarge(most) => write!(f, "larger than the {most} bytes that are read"),
            Unread::Failed(e) => write!(f, "{e}"),
        }
    }
}

// All bytes of the reader, at most `most`.
pub fn load<R: Read>(heap: Global, reader: &mut R, most: usize) -> Result<Vec<u8>, Unread>
    ensures { IfOk result (λ v. vec_len v ≤ most) }
{
    let mut all = Vec::with_capacity(heap, most)?;
    let mut part = [0u8; 65536];
    // not `take` and `read_to_end`: they don't say how much they read where the reader's bytes are not known
    loop {
        let count = reader.read(&mut part)?;
        if count == 0 {
            return Ok(all);
        }
        if count > most - all.len() {
            return Err(Unread::TooLarge(most));
        }
        all.extend_from_slice(&part[..count])?;
    }
}

// The text of the file, or of standard input where the name is `-`.
pub fn load_named(rt: &HostRuntime, name: &str, most: usize) -> Result<Vec<u8>, Unread>
    ensures { IfOk result (λ v. vec_len v ≤ most) }
{
    if name == "-" {
        return load(rt.alloc(), &mut rt.stdin(), most);
    }
    let mut file = File::open(rt, name)?;
    load(rt.alloc(), &mut file, most)
}
