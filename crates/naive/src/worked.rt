// Questions whose answers are known, as words.
use crate::judging::Answer;
use std::alloc::{AllocError, Global};

// What must come out: one answer, or any of a kind, for which `None` would be no word.
#[derive(Clone, Copy)]
pub enum Expected {
    Just(Answer),
    // with any memory
    Fails,
}

impl Expected {
    pub fn admits(self, answer: Answer) -> bool {
        match self {
            Expected::Just(expected) => answer == expected,
            Expected::Fails => matches!(answer, Answer::Fails(_)),
        }
    }
}

#[derive(Clone, Copy)]
pub struct Worked<'a> {
    pub says: &'a str,
    pub words: &'a [u32],
    pub expected: Expected,
}

pub const WORKED: [Worked<'static>; 10] = [
    Worked {
        says: "cell 1 2, row 2 0 : other 1 0, row 1 0",
        words: &[3, 0, 2, 2, 1, 2, 3, 2, 0, 1, 1, 1, 1, 0, 3, 1, 0],
        expected: Expected::Just(Answer::Follows),
    },
    // 3 may be in the first row
    Worked {
        says: "row 1 2, row 2 3 : row 1 3",
        words: &[4, 0, 2, 3, 1, 2, 3, 2, 3, 0, 1, 3, 1, 3],
        expected: Expected::Fails,
    },
    Worked {
        says: "row 1 2, row 2 3, cell 3 4 : row 1 3, cell 3 4",
        words: &[5, 0, 3, 3, 1, 2, 3, 2, 3, 2, 3, 4, 0, 2, 3, 1, 3, 2, 3, 4],
        expected: Expected::Just(Answer::Follows),
    },
    Worked {
        says: "other 2 1, row 1 2, row 1 3 : same 1 3, row 1 2",
        words: &[4, 1, 2, 1, 2, 1, 3, 1, 2, 3, 1, 3, 1, 1, 0, 1, 3, 3, 1, 2],
        expected: Expected::Just(Answer::Follows),
    },
    Worked {
        says: "other 1 2, row 1 2 : cell 1 2",
        words: &[3, 1, 1, 1, 1, 2, 3, 1, 2, 0, 1, 2, 1, 2],
        expected: Expected::Just(Answer::Fails(2)),
    },
    // there is no such memory
    Worked {
        says: "cell 1 2, cell 1 3 : row 1 1",
        words: &[4, 0, 2, 2, 1, 2, 2, 1, 3, 0, 1, 3, 1, 1],
        expected: Expected::Just(Answer::Follows),
    },
    Worked {
        says: "row 0 1 : same 1 0",
        words: &[2, 0, 1, 3, 0, 1, 1, 0, 0, 1, 0],
        expected: Expected::Just(Answer::Follows),
    },
    Worked {
        says: "row 1 2 : nothing",
        words: &[3, 0, 1, 3, 1, 2, 0, 0],
        expected: Expected::Just(Answer::Fails(1)),
    },
    Worked {
        says: "same 1 2, row 1 2 : nothing",
        words: &[3, 1, 1, 0, 1, 2, 3, 1, 2, 0, 0],
        expected: Expected::Just(Answer::Follows),
    },
    Worked {
        says: "nothing : nothing",
        words: &[1, 0, 0, 0, 0],
        expected: Expected::Just(Answer::Follows),
    },
];

// Rows from 1 to 2, from 2 to 3 and so on to 63, and from there to 1 : a row from 1 to 1, which is empty. Two of them
// can have a cell each and the others none, but not one alone.
pub fn round(heap: Global) -> Result<Vec<u32>, AllocError> {
    let mut words = Vec::new(heap);
    words.extend_from_slice(&[64, 0, 63])?;
    for name in 1..64u32 {
        words.extend_from_slice(&[3, name, 1 + name % 63])?;
    }
    words.extend_from_slice(&[0, 1, 3, 1, 1])?;
    Ok(words)
}
