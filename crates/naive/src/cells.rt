// A small memory, and shares of it as bits: cell number i is in a share if its bit i is set. To go through all shares of a
// share is so to count, which no list of cells would make plainer.
ghost use Rattle.std.specs.Prelude.{◌≡◌, ◌+◌, ◌-◌, ◌%◌, ◌/◌, ◌^◌, ◌<◌, ◌≤◌, ◌==◌, ◌++◌, ◌↔◌, [], ◌∷◌, true, false, length, take, IfSome, OnOk, OnErr};
ghost use Rattle.std.specs.List.{list_any};

use std::marker::Model;

// A told memory has at most this many cells.
pub const MOST_CELLS: usize = 16;

#[derive(Clone, Copy, PartialEq, Eq, Default)]
pub struct Cell {
    pub place: u32,
    pub leads: u32,
}

// Why a cell can't be put into a memory.
#[derive(Clone, Copy, PartialEq, Eq)]
pub enum Refused {
    Nowhere,
    Taken,
    NoRoom,
}

// What lies in a memory's array behind its cells. It is always this, so that the list of the cells gives the whole array, as the
// model of a type that is `Copy` has to.
const NOTHING: Cell = Cell { place: 0, leads: 0 };

// Cells at different places, none nowhere.
// An array with a count, since a vector of fixed capacity is not `Copy`, and a memory can be copied.
#[derive(Clone, Copy)]
pub struct Cells {
    cells: [Cell; MOST_CELLS],
    count: usize,
}

// Its cells, in the order in which they were put.
impl Model for Cells {
    ghost use Rattle.std.specs.Prelude.{◌≡◌, ◌≤◌, List, length, take};
    ghost use Rattle.naive.specs.declared.cells.Cell.{Cell};
    ghost use Rattle.naive.specs.Padded.{padded, IsPadded, padded_same, padded_count};

    ghost Value = { List Cell };

    ghost view = { λ s. take s.count s.cells };

    ghost invariant = { λ s. IsPadded s.count s.cells };

    ghost inverse = { λ cells. record { cells = padded cells; count = length cells } };

    ghost inverse_ok = { λ s h i. record {
      cells = padded_same s.count s.cells h i;
      count = padded_count s.count s.cells h i;
    } };
}

impl Cells {
    pub fn new() -> Cells
        ensures { result ≡ [] }
    {
        Cells {
            cells: [NOTHING; MOST_CELLS],
            count: 0,
        }
    }

    pub fn len(&self) -> usize
        ensures count { result ≡ length self.now }
        ensures few { result ≤ 16 }
    {
        self.as_slice().len()
    }

    // The cells, in order.
    fn as_slice(&self) -> &[Cell]
        ensures cells { result.now ≡ self.now }
        ensures few { length result.now ≤ 16 }
    {
        &self.cells[..self.count]
    }

    // All of the cells, as a share.
    pub fn all(&self) -> u32 {
        (1u32 << self.len()) - 1
    }

    // Which cell of the share is at the place?
    fn find(&self, share: u32, place: u32) -> Option<usize>
        ensures here { IfSome result (λ i. i < length self.now) }
        ensures few { IfSome result (λ i. i < 16) }
        ensures of_the_share { IfSome result (λ i. (share / 2 ^ i) % 2 ≡ 1) }
    {
        self.as_slice()
            .iter()
            .position(|cell| cell.place == place)
            .filter(|i| (share >> *i) & 1 == 1)
    }

    fn is_taken(&self, place: u32) -> bool
        ensures { result ≡ list_any (λ cell. cell.place == place) self.now }
    {
        self.as_slice().iter().any(|cell| cell.place == place)
    }

    // One cell more.
    pub fn put(&mut self, cell: Cell) -> Result<(), Refused>
        ensures ok { OnOk result (self.new ≡ self.old ++ cell ∷ []) }
        ensures err { OnErr result (self.new ≡ self.old) }
        ensures nowhere { (result ≡ Err Refused.Nowhere) ↔ (cell.place ≡ 0) }
        ensures taken { result ≡ Err Refused.Taken → list_any (λ c. c.place == cell.place) self.old ≡ true }
        ensures free { OnOk result (list_any (λ c. c.place == cell.place) self.old ≡ false) }
        ensures no_room { result ≡ Err Refused.NoRoom → length self.old ≡ 16 }
    {
        if cell.place == 0 {
            return Err(Refused::Nowhere);
        }
        if self.is_taken(cell.place) {
            return Err(Refused::Taken);
        }
        if self.count >= MOST_CELLS {
            return Err(Refused::NoRoom);
        }
        self.cells[self.count] = cell;
        self.count += 1;
        Ok(())
    }

    // Without the cell that was put last.
    pub fn take_back(&mut self)
        ensures { self.new ≡ take (length self.old - 1) self.old }
    {
        self.count = self.count.saturating_sub(1);
        self.cells[self.count] = NOTHING;
    }

    // Is the share just one cell, at the first place and leading to the second?
    pub fn is_cell(&self, share: u32, from: u32, to: u32) -> bool {
        self.find(share, from)
            .is_some_and(|i| share == 1 << i && self.cells[i].leads == to)
    }

    // Is the share a row from the first place to the second? It is walked along till its end, and then no cell may be
    // left; at a place where there is none, it isn't a row.
    pub fn is_row(&self, share: u32, from: u32, to: u32) -> bool {
        let mut at = from;
        let mut left = share;
        while at != to {
            let Some(i) = self.find(left, at) else {
                return false;
            };
            left -= 1 << i;
            at = self.cells[i].leads;
        }
        left == 0
    }
}
