// Claims and questions as values, and the words of a question.
ghost use Rattle.std.specs.Prelude.{◌≡◌, ◌≤◌, ◌++◌, map, IfOk, vec_len, OnOk};
ghost use Rattle.std.specs.List.{flat_map};
ghost use Rattle.claims.specs.Meaning.{pure_of, atom_of, claim_of, question_of};
ghost use Rattle.claims.specs.Words.{words as words_of, claim_words, pure_words, atom_words, Limits};

use crate::part::Part;
use crate::parts::{Atom, Pure};
use std::alloc::{AllocError, Global};

// What is said of names, and of cells and rows (a symbolic heap).
#[derive(Drop, PartialEq)]
pub struct Claim {
    pub pures: Vec<Pure>,
    pub atoms: Vec<Atom>,
}

// Does the first claim say the second (entailment)? The names are below `names`. That it is within the limits is asked for
// where words or knowledge are made of it, and not by the type: a question that is only printed may have any.
#[derive(Drop)]
pub struct Question {
    pub names: u8,
    pub first: Claim,
    pub second: Claim,
}

// Puts the words of the parts behind those that are there.
fn push_parts<P: Part>(out: &mut Vec<u32>, parts: &[P]) -> Result<(), AllocError>
    ensures { OnOk result (out.new.items ≡ out.old.items ++ flat_map P.words_of (map P.meaning parts.now)) }
{
    for part in parts {
        out.extend_from_slice(&part.words())?;
    }
    Ok(())
}

// Puts the words of a claim behind those that are there.
fn push_claim(out: &mut Vec<u32>, claim: &Claim) -> Result<(), AllocError>
    requires few_pures { vec_len claim.now.pures ≤ 256 }
    requires few_atoms { vec_len claim.now.atoms ≤ 64 }
    ensures { OnOk result (out.new.items ≡ out.old.items ++ claim_words (claim_of claim.now)) }
{
    out.push(claim.pures.len() as u32)?;
    out.push(claim.atoms.len() as u32)?;
    push_parts(out, claim.pures.as_slice())?;
    push_parts(out, claim.atoms.as_slice())
}

impl Question {
    // The words of a question that is within the limits, so that `read` reads them back.
    pub fn words(&self, heap: Global) -> Result<Vec<u32>, AllocError>
        requires { Limits (question_of self.now) }
        ensures { IfOk result (λ v. v.items ≡ words_of (question_of self.now)) }
    {
        let mut out = Vec::new(heap);
        out.push(u32::from(self.names))?;
        push_claim(&mut out, &self.first)?;
        push_claim(&mut out, &self.second)?;
        Ok(out)
    }
}
