// An instance in the notation of the program `holds`: what the names stand for, and then the cells.
use crate::instances::Instance;
use claims::{Name, Place};
use memory::walks::at;
use notation::Asked;
use std::alloc::{AllocError, Global};

// A line has fewer columns than this, unless a single entry is too long for it.
const COLUMNS: usize = 80;

const BEGIN: &str = "memory ";

// Entries that follow stand below the first.
const INDENT: &str = "       ";

// Lines of entries, the last without its end.
#[derive(Drop)]
struct Lines {
    text: String,
    // how many columns the last line has, unless the next entry begins a line
    columns: Option<usize>,
}

impl Lines {
    fn new(heap: Global) -> Lines {
        Lines {
            text: String::new(heap),
            columns: None,
        }
    }

    // Lets the next entry begin a line.
    fn end_line(&mut self) {
        self.columns = None;
    }

    // How many columns the last line has with an entry so wide behind the last one, if there is room for it.
    fn columns_with(&self, wide: usize) -> Option<usize> {
        self.columns
            .map(|columns| columns.saturating_add(2).saturating_add(wide))
            .filter(|columns| *columns < COLUMNS)
    }

    // Puts the entry behind the last one, or at the beginning of the next line.
    fn add(&mut self, entry: &str) -> Result<(), AllocError> {
        let wide = entry.chars().count();
        if let Some(columns) = self.columns_with(wide) {
            self.columns = Some(columns);
            return write!(self.text, ", {entry}");
        }
        self.columns = Some(wide.saturating_add(INDENT.len()));
        if self.text.is_empty() {
            write!(self.text, "{BEGIN}{entry}")
        } else {
            write!(self.text, "\n{INDENT}{entry}")
        }
    }

    // What each name stands for.
    fn add_names(&mut self, heap: Global, asked: &Asked, names: &[u32]) -> Result<(), AllocError> {
        for name in (1..asked.question.names).map(Name) {
            let spelled = asked.spelled(name);
            let place = at(names, name);
            self.add(format!(in heap; "{spelled} = {place}")?.as_str())?;
        }
        Ok(())
    }

    // The cells, each with its place and where it leads.
    fn add_cells(&mut self, heap: Global, memory: &[u32]) -> Result<(), AllocError> {
        let (cells, _) = memory.as_chunks::<2>();
        for [from, to] in cells {
            let (from, to) = (Place(*from), Place(*to));
            self.add(format!(in heap; "{from} -> {to}")?.as_str())?;
        }
        Ok(())
    }
}

// The instance as text that begins with `memory`; its names are those of the question.
pub fn memory_form(heap: Global, asked: &Asked, instance: &Instance) -> Result<String, AllocError> {
    let mut lines = Lines::new(heap);
    lines.add_names(heap, asked, instance.names.as_slice())?;
    lines.end_line();
    lines.add_cells(heap, instance.memory.as_slice())?;
    if lines.text.is_empty() {
        lines.add("nothing")?;
    }
    lines.text.push('\n')?;
    let Lines { text, columns: _ } = lines;
    Ok(text)
}
