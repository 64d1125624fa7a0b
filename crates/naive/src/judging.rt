// Is an answer right, as far as going through memories shows?
use crate::parts::Question;
use crate::telling::refutes;
use crate::trying::try_all;
use std::fmt;

// What somebody else answered to a question: three answers, each printed in its own words.
#[derive(Clone, Copy, PartialEq, Eq)]
pub enum Answer {
    Follows,
    // it doesn't, and a memory with so many cells is told that shows it
    Fails(usize),
    Nothing,
}

impl fmt::Display for Answer {
    fn fmt<W: fmt::Write>(&self, f: &mut fmt::Formatter<W>) -> fmt::Result {
        match self {
            Answer::Follows => write!(f, "follows"),
            Answer::Fails(1) => write!(f, "fails, with one cell"),
            Answer::Fails(cells) => write!(f, "fails, with {cells} cells"),
            Answer::Nothing => write!(f, "no answer"),
        }
    }
}

// What came of judging many answers.
#[derive(Default, Drop)]
pub struct Tally {
    pub follow: u64,
    pub fail: u64,
    pub differ: u64,
    // the most cells that were told
    pub most_cells: usize,
    // how many memories were gone through, and the most for one question
    pub memories: u64,
    pub most_memories: u64,
}

impl Tally {
    // Does the second claim follow, as far as one can see here? Where there are too many names, one can't.
    fn follows(&mut self, question: &Question) -> bool {
        let Some(tried) = try_all(question) else {
            return false;
        };
        self.memories = self.memories.saturating_add(tried.memories);
        self.most_memories = self.most_memories.max(tried.memories);
        tried.follows
    }

    // Judges one answer more: true, if it is right. What is told are the words of a memory, if it fails.
    pub fn judge(&mut self, question: &Question, answer: Answer, told: &[u32]) -> bool {
        let follows = self.follows(question);
        let right = match answer {
            Answer::Follows => {
                self.follow = self.follow.saturating_add(1);
                follows
            }
            Answer::Fails(cells) => {
                self.fail = self.fail.saturating_add(1);
                self.most_cells = self.most_cells.max(cells);
                !follows && refutes(question, told, cells)
            }
            Answer::Nothing => false,
        };
        if !right {
            self.differ = self.differ.saturating_add(1);
        }
        right
    }
}

impl fmt::Display for Tally {
    fn fmt<W: fmt::Write>(&self, f: &mut fmt::Formatter<W>) -> fmt::Result {
        writeln!(
            f,
            "made at random: {} follow, {} fail, with at most {} cells told",
            self.follow, self.fail, self.most_cells
        )?;
        writeln!(
            f,
            "gone through: {} memories, at most {} for one question",
            self.memories, self.most_memories
        )?;
        match self.differ {
            0 => write!(f, "none differ"),
            differ => write!(f, "{differ} differ"),
        }
    }
}
