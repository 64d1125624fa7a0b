// The entries of a memory, as far as they are read: what the names stand for, and the cells.
ghost use Rattle.std.specs.Prelude.{length, IfOk};
ghost use Rattle.memory_notation.specs.Placing.{Placed};

use crate::problems::Problem;
use crate::stops::Stop;
use memory::checks::MOST_CELLS;
use notation::numbering::find;
use notation::quotes::Quote;
use notation::{Asked, Span};
use std::alloc::{AllocError, Global};
use std::collections::BTreeSet;

#[derive(Clone, Copy)]
pub struct Cell {
    pub at: u32,
    pub to: u32,
}

#[derive(Clone, Copy)]
pub enum Entry {
    // a name, and the place that it stands for
    Name(Span, u32),
    Cell(Cell),
}

#[derive(Drop)]
pub struct Entries {
    // the place that each name of the claim stands for, once it is given
    places: Vec<Option<u32>>,
    // in the order of the entries
    cells: Vec<Cell>,
    // the places of the cells, by order and not by hashes, since a text could choose places that collide
    taken: BTreeSet<u32>,
}

impl Entries {
    // No entries yet, for a claim with so many names. The first is nowhere.
    pub fn new(heap: Global, names: usize) -> Result<Entries, AllocError> {
        let mut places = vec![in heap; Some(0)]?;
        places.resize(names.max(1), None)?;
        Ok(Entries {
            places,
            cells: Vec::new(heap),
            taken: BTreeSet::new(heap),
        })
    }

    // The name stands for the place. A name that the claim doesn't mention is passed over.
    fn give<'a>(&mut self, asked: &Asked<'a>, name: Span, place: u32) -> Result<(), Stop<'a>> {
        let spelled = name.of(asked.text);
        let Some(i) = find(asked.text, asked.names.as_slice(), spelled) else {
            return Ok(());
        };
        let Some(given) = self.places.get_mut(i) else {
            return Ok(());
        };
        if given.is_some() {
            return Err(Stop::at(name.start, Problem::NameTwice(Quote::new(spelled))));
        }
        *given = Some(place);
        Ok(())
    }

    // There is such a cell, by an entry that begins at `from`.
    fn add<'a>(&mut self, cell: Cell, from: usize) -> Result<(), Stop<'a>> {
        if cell.at == 0 {
            return Err(Stop::at(from, Problem::CellNowhere));
        }
        if self.cells.len() >= MOST_CELLS && !self.taken.contains(&cell.at) {
            return Err(Stop::at(from, Problem::ManyCells));
        }
        if !self.taken.insert(cell.at)? {
            return Err(Stop::at(from, Problem::CellTwice(cell.at)));
        }
        self.cells.push(cell)?;
        Ok(())
    }

    // Takes the entry that begins at `from` in the text.
    pub fn put<'a>(
        &mut self,
        asked: &Asked<'a>,
        entry: Entry,
        from: usize,
    ) -> Result<(), Stop<'a>> {
        match entry {
            Entry::Name(name, place) => self.give(asked, name, place),
            Entry::Cell(cell) => self.add(cell, from),
        }
    }

    // A word for each name: the place that it stands for. Refuses where a name has none.
    pub fn name_words<'a>(&self, heap: Global, asked: &Asked<'a>) -> Result<Vec<u32>, Stop<'a>>
        ensures { IfOk result (λ v. Placed self.now.places.items (length asked.now.names.items) v.items) }
    {
        let mut words = Vec::new(heap);
        // by number, since a zip would end where the places do, and not refuse the name
        for (i, name) in asked.names.iter().enumerate() {
            let Some(Some(place)) = self.places.get(i) else {
                let quote = Quote::new(name.of(asked.text));
                return Err(Stop::at(name.start, Problem::NoPlace(quote)));
            };
            words.push(*place)?;
        }
        Ok(words)
    }

    // Two words for each cell.
    pub fn memory_words(&self, heap: Global) -> Result<Vec<u32>, AllocError> {
        let mut words = Vec::new(heap);
        for cell in self.cells.iter() {
            words.push(cell.at)?;
            words.push(cell.to)?;
        }
        Ok(words)
    }
}
