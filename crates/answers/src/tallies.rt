// How the questions of a run came out.
ghost use Rattle.std.specs.Prelude.{◌≡◌, ◌+◌, min};

use crate::asking::Answer;
use std::fmt;

#[derive(Clone, Copy, Debug, Default, PartialEq, Eq)]
pub struct Tally {
    pub follow: u64,
    pub fail: u64,
    pub unread: u64,
}

impl Tally {
    pub fn new() -> Tally {
        Tally::default()
    }

    // Counts a question with its answer.
    pub fn add(&mut self, answer: &Answer) {
        match answer {
            Answer::Follows => self.follow = self.follow.saturating_add(1),
            Answer::Fails(_) => self.fail = self.fail.saturating_add(1),
        }
    }

    // Counts questions that were not read.
    pub fn add_unread(&mut self, count: u64)
        ensures follow { self.new.follow ≡ self.old.follow }
        ensures fail { self.new.fail ≡ self.old.fail }
        ensures unread { self.new.unread ≡ min (self.old.unread + count) u64.MAX }
    {
        self.unread = self.unread.saturating_add(count);
    }

    // How many questions there were.
    pub fn questions(&self) -> u64 {
        self.follow
            .saturating_add(self.fail)
            .saturating_add(self.unread)
    }
}

// A comment line of the notation.
impl fmt::Display for Tally {
    fn fmt<W: fmt::Write>(&self, f: &mut fmt::Formatter<W>) -> fmt::Result {
        let questions = self.questions();
        let Tally {
            follow,
            fail,
            unread,
        } = *self;
        write!(f, "# {questions} questions: {follow} follow, {fail} fail")?;
        if unread > 0 {
            write!(f, ", {unread} not read")?;
        }
        Ok(())
    }
}
