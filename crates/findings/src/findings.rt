// What was found out about a claim, for people: the names that must be the same, those that can't be, and that the claim
// can't be at all. Only what the claim doesn't say itself is told.
ghost use Rattle.std.specs.Prelude.{◌<◌, ◌≤◌};
ghost use Rattle.claims.specs.Meaning.{question_of};
ghost use Rattle.claims.specs.Words.{Limits};
ghost use Rattle.findings.specs.Proposition.{limited};

use claims::Name;
use linked::known::Known;
use linked::settle::{Outcome, settle_first};
use notation::Asked;
use std::alloc::{AllocError, Global};
use std::fmt;

// What is known of the names of a question's first claim.
#[derive(Drop)]
struct Findings<'a> {
    asked: &'a Asked<'a>,
    known: Known,
    ghost few_names: { asked.now.question.names ≤ 64 },
}

impl Findings<'_> {
    // Does the claim say itself that the two are the same, or that they are other?
    fn is_given(&self, x: Name, y: Name) -> bool {
        self.asked.question.first.pures.iter().any(|pure| {
            let names = pure.names();
            names == (x, y) || names == (y, x)
        })
    }

    // One finding on a line of its own, if the claim doesn't say it.
    fn tell<W: fmt::Write>(
        &self,
        f: &mut fmt::Formatter<W>,
        word: &str,
        x: u8,
        y: u8,
    ) -> fmt::Result {
        let (x, y) = (Name(x), Name(y));
        if self.is_given(x, y) {
            return Ok(());
        }
        let (left, right) = (self.asked.spelled(x), self.asked.spelled(y));
        write!(f, "# must be: {word} {left} {right}\n")
    }

    // The names that are the same as another. Here and below names are gone through by number, since what is known goes by it.
    fn tell_same<W: fmt::Write>(&self, f: &mut fmt::Formatter<W>) -> fmt::Result {
        for x in 1..self.asked.question.names {
            let stands = self.known.find(x);
            if stands != x {
                self.tell(f, "same", stands, x)?;
            }
        }
        Ok(())
    }

    // The names behind x that are other than it.
    fn tell_other_than<W: fmt::Write>(&self, f: &mut fmt::Formatter<W>, x: u8) -> fmt::Result
        requires { x < 64 }
    {
        for y in x + 1..self.asked.question.names {
            if self.known.find(y) == y && self.known.other(x, y) {
                self.tell(f, "other", x, y)?;
            }
        }
        Ok(())
    }

    // The names that are other, each told by the one that stands for it.
    fn tell_other<W: fmt::Write>(&self, f: &mut fmt::Formatter<W>) -> fmt::Result {
        for x in 0..self.asked.question.names {
            if self.known.find(x) == x {
                self.tell_other_than(f, x)?;
            }
        }
        Ok(())
    }
}

impl fmt::Display for Findings<'_> {
    fn fmt<W: fmt::Write>(&self, f: &mut fmt::Formatter<W>) -> fmt::Result {
        self.tell_same(f)?;
        self.tell_other(f)
    }
}

// What was found out about a question's first claim, as comment lines of the notation.
#[derive(Clone, Copy)]
pub(crate) struct FoundOut<'a> {
    pub(crate) asked: &'a Asked<'a>,
    ghost limits: { Limits (question_of asked.now.question) } by { Prim.hlevel limited },
}

impl fmt::Display for FoundOut<'_> {
    fn fmt<W: fmt::Write>(&self, f: &mut fmt::Formatter<W>) -> fmt::Result {
        let asked = self.asked;
        match settle_first(&asked.question) {
            Outcome::Never => f.write_str("# the first claim can't be\n"),
            Outcome::Forks(known) | Outcome::Holds(known) => {
                let findings = Findings { asked, known };
                write!(f, "{findings}")
            }
        }
    }
}

pub fn found(heap: Global, asked: &Asked) -> Result<String, AllocError>
    requires { Limits (question_of asked.now.question) }
{
    let found = FoundOut { asked };
    format!(in heap; "{found}")
}
