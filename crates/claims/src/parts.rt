// The two kinds of parts that a claim has, and their words: a kind and two names.
ghost use Rattle.std.specs.Prelude.{◌≡◌, IfSome, IfNone, take, ◌∷◌, [], ◌<◌, ◌≤◌, length};
ghost use Rattle.claims.specs.Ends.{left, right, start, end};
ghost use Rattle.claims.specs.Meaning.{pure_of, atom_of};
ghost use Rattle.claims.specs.Parts.{KindRead};
ghost use Rattle.claims.specs.Words.{pure_words, atom_words, PureBelow, AtomBelow};
ghost use Rattle.claims.specs.Claims as claims;
ghost use Rattle.std.proofs.Common.{refl};

use crate::names::Name;
use crate::part::Part;

// What a claim says of two names: they stand for the same, or they do not.
#[derive(Clone, Copy, Debug, PartialEq, Eq)]
pub enum Pure {
    Same(Name, Name),
    Other(Name, Name),
}

// What a claim says of memory: a cell at the first name that leads to the second (points-to), or a row of
// cells from the first to the second (an acyclic list segment).
#[derive(Clone, Copy, Debug, PartialEq, Eq)]
pub enum Atom {
    Cell(Name, Name),
    Row(Name, Name),
}

// The kind and the two names that the words begin with, if these are below `names`.
fn kind_and_names(words: &[u32], names: u8) -> Option<(u32, Name, Name)>
    ensures { KindRead words.now names result }
{
    let [kind, x, y, ..] = words else {
        return None;
    };
    Some((*kind, Name::below(*x, names)?, Name::below(*y, names)?))
}

impl Part for Pure {
    ghost Meaning = { claims.Pure };

    ghost meaning = { pure_of };

    ghost words_of = { pure_words };

    ghost Below = { PureBelow };

    ghost three = { elim [ claims.same x y ↦ refl | claims.other x y ↦ refl ] };

    fn read(words: &[u32], names: u8) -> Option<Pure> {
        match kind_and_names(words, names)? {
            (0, x, y) => Some(Pure::Same(x, y)),
            (1, x, y) => Some(Pure::Other(x, y)),
            _ => None,
        }
    }

    fn words(self) -> [u32; 3] {
        match self {
            Pure::Same(x, y) => [0, u32::from(x.0), u32::from(y.0)],
            Pure::Other(x, y) => [1, u32::from(x.0), u32::from(y.0)],
        }
    }
}

impl Part for Atom {
    ghost Meaning = { claims.Atom };

    ghost meaning = { atom_of };

    ghost words_of = { atom_words };

    ghost Below = { AtomBelow };

    ghost three = { elim [ claims.cell x y ↦ refl | claims.row x y ↦ refl ] };

    fn read(words: &[u32], names: u8) -> Option<Atom> {
        match kind_and_names(words, names)? {
            (2, x, y) => Some(Atom::Cell(x, y)),
            (3, x, y) => Some(Atom::Row(x, y)),
            _ => None,
        }
    }

    fn words(self) -> [u32; 3] {
        match self {
            Atom::Cell(x, y) => [2, u32::from(x.0), u32::from(y.0)],
            Atom::Row(x, y) => [3, u32::from(x.0), u32::from(y.0)],
        }
    }
}

impl Pure {
    // The two names that it speaks of.
    pub fn names(self) -> (Name, Name)
        ensures left { result.0.0 ≡ left (pure_of self) }
        ensures right { result.1.0 ≡ right (pure_of self) }
    {
        match self {
            Pure::Same(x, y) | Pure::Other(x, y) => (x, y),
        }
    }
}

impl Atom {
    // The name where it begins.
    pub fn start(self) -> Name
        ensures { result.0 ≡ start (atom_of self) }
    {
        match self {
            Atom::Cell(x, _) | Atom::Row(x, _) => x,
        }
    }

    // The name that it leads to.
    pub fn end(self) -> Name
        ensures { result.0 ≡ end (atom_of self) }
    {
        match self {
            Atom::Cell(_, y) | Atom::Row(_, y) => y,
        }
    }
}
