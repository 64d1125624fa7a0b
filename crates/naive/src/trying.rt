// Going through the memories of the first claim, to find one of which the second doesn't hold.
//
// Names are given places in all ways, up to renaming: a name is the same as an earlier one, or it has a place of its
// own. Then the first claim's cells and rows are laid out one after the other. A cell is where it has to be. A row
// goes on, cell by cell, to every place that it could: to the place of any name, its end among them, or to one
// without a name, till it is at its end. So every length of every row comes up, and every place inside it. Where a
// cell would be nowhere, or at a place that has one, or would be the ninth, that memory is given up.
ghost use Rattle.std.specs.Prelude.{◌≡◌, ◌≤◌, length};

use crate::cells::{Cell, Cells};
use crate::dealing::{all_hold, holds, place_of};
use crate::parts::{Atom, AtomKind, Question};

// So many names can be given places here, with nowhere.
pub const MOST_NAMES: usize = 6;

// No memory with more cells is tried.
const MOST_TRIED: usize = 8;

// What came of it.
#[derive(Clone, Copy)]
pub struct Tried {
    pub follows: bool,
    // how many memories of the first claim were looked at, whether it follows or not
    pub memories: u64,
}

// A memory that is being made, and how many were looked at before.
#[derive(Drop)]
struct Making<'a> {
    question: &'a Question,
    names: [u32; MOST_NAMES],
    cells: Cells,
    memories: u64,
}

impl Making<'_> {
    // Each of these asks, of all the memories that can be made from here on: is one of them against the question?

    // Gives the first so many names places in all ways, the last of them first. Nowhere has its place.
    fn give_places(&mut self, count: usize) -> bool
        requires { count ≤ 6 }
    {
        if count <= 1 {
            return self.places_hold() && self.lay(self.question.first.atoms.as_slice());
        }
        let name = count - 1;
        // loops here and below, since a closure that lays out cells would have to promise that it takes them back
        for place in 0..count {
            self.names[name] = place as u32;
            if self.give_places(name) {
                return true;
            }
        }
        false
    }

    // Does each name stand for its own place, or for that of an earlier name with its own, and is that as the first
    // claim says?
    fn places_hold(&self) -> bool {
        self.names
            .iter()
            .all(|place| place_of(&self.names, *place) == *place)
            && all_hold(self.question.first.pures.as_slice(), &self.names)
    }

    // Lays out the cells and rows.
    #[cycle(lay)]
    fn lay(&mut self, atoms: &[Atom]) -> bool
        ensures { length self.new.cells ≡ length self.old.cells }
    {
        let Some((atom, rest)) = atoms.split_first() else {
            return self.is_against();
        };
        let from = place_of(&self.names, atom.left);
        let to = place_of(&self.names, atom.right);
        match atom.kind {
            AtomKind::Cell => self.lay_cell(from, to, to, rest),
            AtomKind::Row => self.lay_row(from, to, rest),
        }
    }

    // Lays out what is left of a row, and then the others.
    #[cycle(lay)]
    fn lay_row(&mut self, at: u32, to: u32, rest: &[Atom]) -> bool
        ensures { length self.new.cells ≡ length self.old.cells }
    {
        if at == to {
            return self.lay(rest);
        }
        for place in 0..MOST_NAMES as u32 {
            if place_of(&self.names, place) == place && self.lay_cell(at, place, to, rest) {
                return true;
            }
        }
        let unnamed = (MOST_NAMES + self.cells.len()) as u32;
        self.lay_cell(at, unnamed, to, rest)
    }

    // Lays out one cell, and then what is left of its row from where the cell leads.
    #[cycle(lay)]
    fn lay_cell(&mut self, place: u32, leads: u32, to: u32, rest: &[Atom]) -> bool
        ensures { length self.new.cells ≡ length self.old.cells }
    {
        if self.cells.len() >= MOST_TRIED || self.cells.put(Cell { place, leads }).is_err() {
            return false;
        }
        let found = self.lay_row(leads, to, rest);
        self.cells.take_back();
        found
    }

    // Is the memory, of which the first claim holds, one of which the second doesn't?
    fn is_against(&mut self) -> bool
        ensures { length self.new.cells ≡ length self.old.cells }
    {
        self.memories = self.memories.saturating_add(1);
        !holds(&self.question.second, &self.names, &self.cells)
    }
}

// Does the second claim follow, as far as memories of up to eight cells show? None, if there are too many names.
pub fn try_all(question: &Question) -> Option<Tried> {
    if question.names as usize > MOST_NAMES {
        return None;
    }
    let mut making = Making {
        question,
        names: [0; MOST_NAMES],
        cells: Cells::new(),
        memories: 0,
    };
    let follows = !making.give_places(question.names as usize);
    Some(Tried {
        follows,
        memories: making.memories,
    })
}
