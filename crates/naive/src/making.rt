// Questions made at random, of which about half follow.
//
// The first claim has paths of cells and rows, mostly from different names. The second is seldom made from nothing:
// mostly it is the first with something done to it after which it may still follow, as two cells or rows that meet
// made one row, or with one thing changed.
ghost use Rattle.std.specs.Prelude.{◌<◌, ◌≤◌, IfOk};

use crate::parts::{Atom, AtomKind, Claim, Pure, PureKind, Question};
use crate::random::Random;
use std::alloc::{AllocError, Global};

// How many names a question has, with nowhere.
#[derive(Clone, Copy)]
struct Names {
    count: u32,
    ghost some: { 2 ≤ count },
    ghost few: { count ≤ 6 },
}

impl Names {
    // One of them.
    fn any(self, random: &mut Random) -> u32
        ensures { result < self.count }
    {
        random.below(self.count)
    }
}

// Same or other, of two different names.
fn some_pure(random: &mut Random, names: Names) -> Pure {
    let kind = if random.once_in(4) {
        PureKind::Same
    } else {
        PureKind::Other
    };
    let left = names.any(random);
    Pure {
        kind,
        left,
        right: (left + 1 + random.below(names.count - 1)) % names.count,
    }
}

fn some_kind(random: &mut Random) -> AtomKind {
    if random.once_in(3) {
        AtomKind::Cell
    } else {
        AtomKind::Row
    }
}

// Up to five cells and rows. They go round the names from a random one on, each leading to where the next begins, but
// now and then one begins or leads anywhere. Nowhere is left out of the round.
fn some_atoms(heap: Global, random: &mut Random, names: Names) -> Result<Vec<Atom>, AllocError> {
    let mut start = 1 + random.below(names.count - 1);
    let count = names.any(random).max(names.any(random));
    let mut atoms = Vec::new(heap);
    for _ in 0..count {
        let next = 1 + start % (names.count - 1);
        let left = if random.once_in(8) {
            names.any(random)
        } else {
            start
        };
        let right = if random.once_in(2) {
            names.any(random)
        } else {
            next
        };
        atoms.push(Atom {
            kind: some_kind(random),
            left,
            right,
        })?;
        start = next;
    }
    Ok(atoms)
}

fn some_claim(heap: Global, random: &mut Random, names: Names) -> Result<Claim, AllocError> {
    let mut pures = Vec::new(heap);
    for _ in 0..random.below(3) {
        pures.push(some_pure(random, names))?;
    }
    Ok(Claim {
        pures,
        atoms: some_atoms(heap, random, names)?,
    })
}

// Makes one row of a cell or row and one that begins where it ends, if there is one.
fn fold(random: &mut Random, atoms: &mut Vec<Atom>) {
    if atoms.is_empty() {
        return;
    }
    let this = random.index(atoms.len());
    let near = atoms[this];
    let next = atoms
        .iter()
        .enumerate()
        .position(|(i, far)| i != this && far.left == near.right);
    if let Some(next) = next {
        atoms[this] = Atom {
            kind: AtomKind::Row,
            left: near.left,
            right: atoms[next].right,
        };
        let _ = atoms.swap_remove(next);
    }
}

// Puts the elements into another order, by their indices, which is what `swap` takes.
fn shuffle(random: &mut Random, atoms: &mut [Atom]) {
    for i in 0..atoms.len() {
        let j = random.index(atoms.len());
        atoms.swap(i, j);
    }
}

// Changes one cell or row: its kind, where it begins or where it ends.
fn change(random: &mut Random, names: Names, atoms: &mut [Atom]) {
    if atoms.is_empty() {
        return;
    }
    let i = random.index(atoms.len());
    let atom = &mut atoms[i];
    match random.below(4) {
        0 => atom.kind = some_kind(random),
        1 => atom.left = names.any(random),
        2 => atom.right = names.any(random),
        _ => atom.kind = AtomKind::Row,
    }
}

// What is so if these are two different cells, and often if they are rows: they begin at different places, which aren't
// nowhere. Or else something of a row's two ends.
fn consequence(random: &mut Random, first: Atom, second: Atom) -> Pure {
    let (kind, right) = match random.below(4) {
        0 => (PureKind::Same, first.right),
        1 => (PureKind::Other, 0),
        2 => (PureKind::Other, first.right),
        _ => (PureKind::Other, second.left),
    };
    Pure {
        kind,
        left: first.left,
        right,
    }
}

// Half of the same and other, and sometimes one that may follow from the cells and rows.
fn weaker_pures(random: &mut Random, claim: &Claim) -> Result<Vec<Pure>, AllocError> {
    let mut pures = claim.pures.clone()?;
    pures.retain(|_| random.once_in(2));
    let atoms = claim.atoms.as_slice();
    if !atoms.is_empty() && random.once_in(3) {
        let first = atoms[random.index(atoms.len())];
        let second = atoms[random.index(atoms.len())];
        pures.push(consequence(random, first, second))?;
    }
    Ok(pures)
}

// The name, or sometimes the new one if it is the old one.
fn renamed(random: &mut Random, name: u32, old: u32, new: u32) -> u32 {
    if name == old && random.once_in(2) {
        new
    } else {
        name
    }
}

// Puts one name for another in some places.
fn rename(random: &mut Random, atoms: &mut [Atom], old: u32, new: u32) {
    for atom in atoms {
        atom.left = renamed(random, atom.left, old, new);
        atom.right = renamed(random, atom.right, old, new);
    }
}

// Puts names that the claim says are the same for each other.
fn rename_same(random: &mut Random, pures: &[Pure], atoms: &mut [Atom]) {
    for pure in pures.iter().filter(|pure| pure.kind == PureKind::Same) {
        rename(random, atoms, pure.left, pure.right);
    }
}

// The claim with this and that done to it.
fn variant(random: &mut Random, names: Names, claim: &Claim) -> Result<Claim, AllocError> {
    let mut atoms = claim.atoms.clone()?;
    for _ in 0..random.below(4) {
        fold(random, &mut atoms);
    }
    rename_same(random, claim.pures.as_slice(), atoms.as_mut_slice());
    if random.once_in(2) {
        change(random, names, atoms.as_mut_slice());
    }
    if random.once_in(8) {
        let name = names.any(random);
        atoms.push(Atom {
            kind: AtomKind::Row,
            left: name,
            right: name,
        })?;
    }
    shuffle(random, atoms.as_mut_slice());
    Ok(Claim {
        pures: weaker_pures(random, claim)?,
        atoms,
    })
}

// A question with nowhere and one to five names besides.
pub fn make(heap: Global, random: &mut Random) -> Result<Question, AllocError>
    ensures { IfOk result (λ q. q.names ≤ 6) }
{
    let count = 2 + random.below(5).max(random.below(5));
    let names = Names { count };
    let first = some_claim(heap, random, names)?;
    let second = if random.once_in(8) {
        some_claim(heap, random, names)?
    } else {
        variant(random, names, &first)?
    };
    Ok(Question {
        names: count,
        first,
        second,
    })
}
