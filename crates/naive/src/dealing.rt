// Does a claim hold of names and a memory? All ways of dealing the cells out are tried.
//
// That there is at most one way, and how to find it, is what a clever program would use. This one doesn't.
use crate::cells::Cells;
use crate::parts::{Atom, AtomKind, Claim, Pure, PureKind};

// What the name stands for: a place, or nowhere, 0, as name 0 always does.
pub fn place_of(names: &[u32], name: u32) -> u32 {
    match name {
        0 => 0,
        _ => names.get(name as usize).copied().unwrap_or(0),
    }
}

fn is_so(pure: &Pure, names: &[u32]) -> bool {
    let left = place_of(names, pure.left);
    let right = place_of(names, pure.right);
    match pure.kind {
        PureKind::Same => left == right,
        PureKind::Other => left != right,
    }
}

pub fn all_hold(pures: &[Pure], names: &[u32]) -> bool {
    pures.iter().all(|pure| is_so(pure, names))
}

// Names and cells go through these three as they are: a struct of the two would be made in `holds` alone.

// Is the share just what the cell or row says?
fn fits(atom: &Atom, names: &[u32], cells: &Cells, share: u32) -> bool {
    let from = place_of(names, atom.left);
    let to = place_of(names, atom.right);
    match atom.kind {
        AtomKind::Cell => cells.is_cell(share, from, to),
        AtomKind::Row => cells.is_row(share, from, to),
    }
}

// Can the cells that are left be dealt out to the atoms, so that all are used, each once? Every share of what is left is
// given to the first atom in turn.
fn deal(atoms: &[Atom], names: &[u32], cells: &Cells, left: u32) -> bool {
    let Some((atom, rest)) = atoms.split_first() else {
        return left == 0;
    };
    (0..=left).any(|share| {
        share & left == share
            && fits(atom, names, cells, share)
            && deal(rest, names, cells, left ^ share)
    })
}

pub fn holds(claim: &Claim, names: &[u32], cells: &Cells) -> bool {
    all_hold(claim.pures.as_slice(), names)
        && deal(claim.atoms.as_slice(), names, cells, cells.all())
}
