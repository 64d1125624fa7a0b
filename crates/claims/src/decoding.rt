// Reading a claim's words, and a question's, as values: the same and other, the cells and rows.
//
// `layouts` tells of what is read here how many parts there are and where they lie.
ghost use Rattle.std.specs.Prelude.{◌+◌, ◌*◌, ◌≤◌, length, IfSome};
ghost use Rattle.claims.specs.Decoding.{PartsRead, ClaimDecoded, QuestionDecoded};
ghost use Rattle.claims.specs.Meaning.{pure_of, atom_of};
ghost use Rattle.claims.specs.Words.{pure_words, atom_words, PureBelow, AtomBelow};

use crate::decoded::{Decoded, DecodedQuestion};
use crate::layouts::{MOST_ATOMS, MOST_NAMES, MOST_PURES};
use crate::names::Name;
use crate::part::Part;
use crate::parts::{Atom, Pure};
use crate::shapes::Shape;

// The parts that the words are, one after the other, put in place of the first of those that are given.
fn read_parts<P: Part, const N: usize>(
    words: &[u32],
    names: u8,
    mut parts: [P; N],
) -> Option<[P; N]>
    requires { length words.now ≤ 3 * N }
    ensures { PartsRead P.words_of (P.Below names) P.meaning N words.now result }
{
    if words.len() % 3 != 0 {
        return None;
    }
    // One index for where a part's words start and where it goes: a proof can't speak of the array while a zipped
    // iterator holds it.
    for i in 0..words.len() / 3 {
        parts[i] = P::read(&words[3 * i..], names)?;
    }
    Some(parts)
}

// The claim that the words begin with, over so many names.
pub fn decode(words: &[u32], names: u8) -> Option<Decoded>
    ensures decodes { ClaimDecoded words.now names result }
    ensures room { IfSome result (λ d. 2 + 3 * (d.shape.pures + d.shape.atoms) ≤ length words.now) }
{
    // by a pattern, here and below: what the rest is shows by itself, where a method would have to tell
    let [pures, atoms, parts @ ..] = words else {
        return None;
    };
    if *pures > MOST_PURES || *atoms > MOST_ATOMS {
        return None;
    }
    let shape = Shape {
        pures: *pures as usize,
        atoms: *atoms as usize,
    };
    if parts.len() < 3 * (shape.pures + shape.atoms) {
        return None;
    }
    let nowhere = Name(0);
    let pures = read_parts(
        &parts[0..3 * shape.pures],
        names,
        [Pure::Same(nowhere, nowhere); 256],
    )?;
    let atoms = read_parts(
        &parts[3 * shape.pures..3 * (shape.pures + shape.atoms)],
        names,
        [Atom::Row(nowhere, nowhere); 64],
    )?;
    Some(Decoded {
        pures,
        atoms,
        shape,
    })
}

// The question that the words are, or none if they are no question.
pub fn decode_question(words: &[u32]) -> Option<DecodedQuestion>
    ensures { QuestionDecoded words.now result }
{
    let [names, claims @ ..] = words else {
        return None;
    };
    if *names < 1 || *names > MOST_NAMES {
        return None;
    }
    let names = *names as u8;
    let first = decode(claims, names)?;
    let rest = &claims[first.shape.len()..];
    let second = decode(rest, names)?;
    if rest.len() != second.shape.len() {
        return None;
    }
    Some(DecodedQuestion {
        names,
        first,
        second,
    })
}
