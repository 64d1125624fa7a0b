// Claims and questions as plain lists, and the words of a question.
//
// These types are like those of `claims`, but share no code with them on purpose: what reads or writes words wrongly
// there should be seen here.
ghost use Rattle.std.specs.Prelude.{◌≡◌};
ghost use Rattle.naive.specs.Kinds.{pure_code, atom_code, Decodes};

use anyhow::{Error, anyhow};
use std::alloc::{AllocError, Global};

#[derive(Clone, Copy, PartialEq, Eq)]
pub enum PureKind {
    Same = 0,
    Other = 1,
}

#[derive(Clone, Copy, PartialEq, Eq)]
pub enum AtomKind {
    Cell = 2,
    Row = 3,
}

impl TryFrom<u32> for PureKind {
    type Error = Error;

    ghost try_from_gives = { Decodes pure_code };

    fn try_from(word: u32) -> Result<PureKind, Error> {
        match word {
            0 => Ok(PureKind::Same),
            1 => Ok(PureKind::Other),
            _ => Err(anyhow!("neither same nor other")),
        }
    }
}

impl From<PureKind> for u32 {
    ghost from_gives = { λ kind word. word ≡ pure_code kind };

    fn from(kind: PureKind) -> u32 {
        kind as u32
    }
}

impl TryFrom<u32> for AtomKind {
    type Error = Error;

    ghost try_from_gives = { Decodes atom_code };

    fn try_from(word: u32) -> Result<AtomKind, Error> {
        match word {
            2 => Ok(AtomKind::Cell),
            3 => Ok(AtomKind::Row),
            _ => Err(anyhow!("neither cell nor row")),
        }
    }
}

impl From<AtomKind> for u32 {
    ghost from_gives = { λ kind word. word ≡ atom_code kind };

    fn from(kind: AtomKind) -> u32 {
        kind as u32
    }
}

// What a claim says of two names, as the kind tells.
#[derive(Clone, Copy)]
pub struct Part<K> {
    pub kind: K,
    pub left: u32,
    pub right: u32,
}

// Two names stand for the same, or they don't.
pub type Pure = Part<PureKind>;

// A cell at the left name that leads to the right one, or a row of cells from one to the other.
pub type Atom = Part<AtomKind>;

#[derive(Drop)]
pub struct Claim {
    pub pures: Vec<Pure>,
    pub atoms: Vec<Atom>,
}

// Does the first claim say the second? The names are below `names`.
#[derive(Drop)]
pub struct Question {
    pub names: u32,
    pub first: Claim,
    pub second: Claim,
}

fn push_parts<K: Copy + Into<u32>>(
    out: &mut Vec<u32>,
    parts: &[Part<K>],
) -> Result<(), AllocError> {
    for part in parts {
        out.extend_from_slice(&[part.kind.into(), part.left, part.right])?;
    }
    Ok(())
}

fn push_claim(out: &mut Vec<u32>, claim: &Claim) -> anyhow::Result<()> {
    out.push(u32::try_from(claim.pures.len())?)?;
    out.push(u32::try_from(claim.atoms.len())?)?;
    push_parts(out, claim.pures.as_slice())?;
    push_parts(out, claim.atoms.as_slice())?;
    Ok(())
}

impl Question {
    pub fn words(&self, heap: Global) -> anyhow::Result<Vec<u32>> {
        let mut out = Vec::new(heap);
        out.push(self.names)?;
        push_claim(&mut out, &self.first)?;
        push_claim(&mut out, &self.second)?;
        Ok(out)
    }
}
