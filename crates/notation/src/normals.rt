// The normal form of a question: the word form, each part on a line, same and other before cells and rows.
// Reading it again gives the same question.
use crate::numbering::Asked;
use claims::{Atom, Claim, Name, Pure};
use std::alloc::{AllocError, Global};
use std::fmt;
use std::str::from_utf8;

const INDENT: &str = "     ";

// A part as it is written: the word that it begins with, and its names.
#[derive(Clone, Copy)]
struct Written(&'static str, Name, Name);

impl From<Pure> for Written {
    fn from(pure: Pure) -> Written {
        match pure {
            Pure::Same(x, y) => Written("same", x, y),
            Pure::Other(x, y) => Written("other", x, y),
        }
    }
}

impl From<Atom> for Written {
    fn from(atom: Atom) -> Written {
        match atom {
            Atom::Cell(x, y) => Written("cell", x, y),
            Atom::Row(x, y) => Written("row", x, y),
        }
    }
}

impl<'a> Asked<'a> {
    // How the name is spelled in the text that was read.
    pub fn spelled(&self, name: Name) -> &'a str {
        if name.0 == 0 {
            return "nowhere";
        }
        let span = self.names.get(usize::from(name.0));
        span.map_or("?", |span| from_utf8(span.of(self.text)).unwrap_or("?"))
    }

    // Writes the claim behind the word that begins it.
    fn write_claim<W: fmt::Write>(
        &self,
        f: &mut fmt::Formatter<W>,
        lead: &str,
        claim: &Claim,
    ) -> fmt::Result {
        if claim.pures.is_empty() && claim.atoms.is_empty() {
            return write!(f, "{lead}nothing\n");
        }
        let pures = claim.pures.iter().map(|pure| Written::from(*pure));
        let atoms = claim.atoms.iter().map(|atom| Written::from(*atom));
        for (i, Written(word, x, y)) in pures.chain(atoms).enumerate() {
            let lead = if i == 0 { lead } else { INDENT };
            let x = self.spelled(x);
            let y = self.spelled(y);
            write!(f, "{lead}{word} {x} {y}\n")?;
        }
        Ok(())
    }
}

// The normal form of the question.
impl fmt::Display for Asked<'_> {
    fn fmt<W: fmt::Write>(&self, f: &mut fmt::Formatter<W>) -> fmt::Result {
        self.write_claim(f, "if   ", &self.question.first)?;
        self.write_claim(f, "then ", &self.question.second)
    }
}

pub fn normal_form(heap: Global, asked: &Asked) -> Result<String, AllocError> {
    format!(in heap; "{asked}")
}
