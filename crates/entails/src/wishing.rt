// What would help a part of a question on: the heuristics of the search, of which nothing is promised.
//
// A match that fails says where: a same or other of the second claim that isn't known; a cell whose end isn't known to be
// the one that is wanted; a row that may be empty or not; a row that might have the end of a wanted one inside.
ghost use Rattle.std.specs.Prelude.{◌<◌, length};

use crate::choosing::is_open_pair;
use crate::wishes::{Detour, Wish};
use claims::{Atom, Pure};
use linked::known::Known;
use matching::parts::Part;
use matching::rests::{DeadEnd, Rest};

// The first same or other of which it isn't known.
fn pure_wish(pures: &[Pure], known: &Known) -> Option<(u8, u8)> {
    pures
        .iter()
        .map(|pure| {
            let (x, y) = pure.names();
            (x.0, y.0)
        })
        .find(|pair| is_open_pair(known, *pair))
}

// What a wanted cell from x to y asks for.
fn cell_wish(own: &[Atom], names: u8, x: u8, y: u8) -> Wish {
    match own.iter().find(|atom| atom.start().0 == x) {
        Some(Atom::Cell(_, z)) => Wish::pair(z.0, y),
        Some(Atom::Row(_, z)) => Wish {
            pair: Some((x, z.0)),
            detour: Some(Detour {
                row: (x, z.0),
                through: names,
            }),
        },
        None => Wish::default(),
    }
}

// What is asked for where the end t of a wanted row may be inside the atom number e.
fn inside_wish(atoms: &[Atom], e: usize, t: u8) -> Wish
    requires { e < length atoms.now }
{
    let row = match atoms[e] {
        Atom::Cell(u, _) => return Wish::pair(u.0, t),
        Atom::Row(u, z) => (u.0, z.0),
    };
    let there = atoms
        .iter()
        .enumerate()
        .find(|(j, atom)| *j != e && atom.start().0 == t);
    match there {
        Some((_, atom)) => Wish::pair(t, atom.end().0),
        None => Wish::detour(row, t),
    }
}

// What is asked for where a wanted row to t is stuck.
fn stuck_wish(stuck: &DeadEnd, t: u8) -> Wish {
    let rest = &stuck.rest;
    let one = rest.ways(stuck.at) < 2;
    let mut fork = Wish::default();
    // one pass finds the first that leads on, or keeps the last that doesn't
    for e in 0..rest.own {
        if !rest.begins(e, stuck.at) {
            continue;
        }
        if one || rest.leads(e, t) {
            return inside_wish(rest.live.as_slice(), e, t);
        }
        fork = Wish::pair(stuck.at, rest.live.get(e).end().0);
    }
    fork
}

// What a wanted atom asks for.
fn atom_wish(rest: &Rest, names: u8, atom: Atom) -> Wish {
    match atom {
        Atom::Cell(x, y) => cell_wish(&rest.live.as_slice()[..rest.own], names, x.0, y.0),
        Atom::Row(_, y) if y.0 >= 64 => Wish::default(),
        Atom::Row(x, y) => match rest.without_row(x.0, y.0) {
            Ok(_) => Wish::default(),
            Err(stuck) => stuck_wish(&stuck, y.0),
        },
    }
}

// The ends of a row.
fn row_ends(atom: Atom) -> Option<(u8, u8)> {
    match atom {
        Atom::Cell(_, _) => None,
        Atom::Row(x, y) => Some((x.0, y.0)),
    }
}

// A row that nothing wants, of which it isn't known whether it is empty.
fn left_over(own: &[Atom], known: &Known) -> Option<(u8, u8)> {
    own.iter()
        .filter_map(|atom| row_ends(*atom))
        .find(|row| is_open_pair(known, *row))
}

// Do several atoms begin at s?
fn is_fork(atoms: &[Atom], s: u8) -> bool {
    atoms.iter().filter(|atom| atom.start().0 == s).count() > 1
}

// A row that begins where another atom does, of which it isn't known whether it is empty: where nothing forks, a memory can
// be told.
fn fork(atoms: &[Atom], known: &Known) -> Option<(u8, u8)> {
    atoms
        .iter()
        .filter_map(|atom| row_ends(*atom))
        .find(|row| is_open_pair(known, *row) && is_fork(atoms, row.0))
}

// What the wanted atoms ask for: of the pairs the first that isn't known, and the first row that might go through a place.
fn atoms_wish(rest: &Rest, wanted: &[Atom], names: u8) -> Wish {
    let mut best = Wish::default();
    for atom in wanted {
        let wish = atom_wish(rest, names, *atom);
        best = Wish {
            pair: best
                .pair
                .or(wish.pair.filter(|pair| is_open_pair(rest.known, *pair))),
            detour: best.detour.or(wish.detour),
        };
    }
    best
}

// What would help on with a part of a question, which has so many names, and in its second claim these *same* and *other*.
pub fn wish(names: u8, pures: &[Pure], part: &Part, known: &Known) -> Wish {
    if let Some((x, y)) = pure_wish(pures, known) {
        return Wish::pair(x, y);
    }
    let whole = part.whole();
    let rest = Rest::new(&whole, part.own.count, known);
    let wish = atoms_wish(&rest, part.wanted.as_slice(), names);
    let pair = wish
        .pair
        .or_else(|| left_over(part.own.as_slice(), known))
        .or_else(|| fork(whole.as_slice(), known));
    Wish {
        pair,
        detour: wish.detour,
    }
}
