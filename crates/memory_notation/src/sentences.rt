// Why a claim doesn't hold, in a sentence with the names of the text.
use crate::cases::Case;
use claims::{Atom, Name, Place, Pure};
use memory::Why;
use memory::walks::at;
use notation::quotes::Excerpt;
use std::alloc::{AllocError, Global};
use std::fmt;

// Where the cell at a place leads.
fn target(memory: &[u32], place: Place) -> Option<Place> {
    let (cells, _) = memory.as_chunks::<2>();
    cells
        .iter()
        .find(|[at, _]| *at == place.0)
        .map(|[_, to]| Place(*to))
}

// Why the claim of the case doesn't hold.
#[derive(Clone, Copy)]
struct Reason<'a, 'b> {
    case: &'b Case<'a>,
    why: Why,
}

impl<'a, 'b> Reason<'a, 'b> {
    fn spelled(&self, name: Name) -> Excerpt<'a> {
        Excerpt::new(self.case.asked.spelled(name).as_bytes())
    }

    fn place(&self, name: Name) -> Place {
        at(self.case.names.as_slice(), name)
    }

    fn same<W: fmt::Write>(&self, f: &mut fmt::Formatter<W>, x: Name, y: Name) -> fmt::Result {
        let a = self.spelled(x);
        let b = self.spelled(y);
        let p = self.place(x);
        let q = self.place(y);
        if x.0 == 0 {
            return write!(f, "`same {a} {b}` isn't so: {b} stands for {q}");
        }
        if y.0 == 0 {
            return write!(f, "`same {a} {b}` isn't so: {a} stands for {p}");
        }
        write!(
            f,
            "`same {a} {b}` isn't so: {a} stands for {p} and {b} for {q}"
        )
    }

    fn other<W: fmt::Write>(&self, f: &mut fmt::Formatter<W>, x: Name, y: Name) -> fmt::Result {
        let a = self.spelled(x);
        let b = self.spelled(y);
        let p = self.place(x);
        write!(f, "`other {a} {b}` isn't so: both stand for {p}")
    }

    fn cell<W: fmt::Write>(&self, f: &mut fmt::Formatter<W>, x: Name, y: Name) -> fmt::Result {
        let a = self.spelled(x);
        let b = self.spelled(y);
        let from = self.place(x);
        let to = self.place(y);
        match target(self.case.memory.as_slice(), from) {
            None => write!(f, "`cell {a} {b}` finds no cell at {from}"),
            Some(leads) if leads == to => write!(f, "`cell {a} {b}` finds no cell left at {from}"),
            Some(leads) => write!(
                f,
                "`cell {a} {b}` isn't so: the cell at {from} leads to {leads}, not to {to}"
            ),
        }
    }

    fn row<W: fmt::Write>(
        &self,
        f: &mut fmt::Formatter<W>,
        x: Name,
        y: Name,
        stuck: Place,
    ) -> fmt::Result {
        let a = self.spelled(x);
        let b = self.spelled(y);
        write!(
            f,
            "`row {a} {b}` stops at {stuck}, where there is no cell left"
        )
    }

    fn left_over<W: fmt::Write>(&self, f: &mut fmt::Formatter<W>, i: usize) -> fmt::Result {
        let (cells, _) = self.case.memory.as_slice().as_chunks::<2>();
        let place = cells.get(i).map_or(0, |[at, _]| *at);
        write!(f, "the cell at {place} is left over")
    }
}

impl fmt::Display for Reason<'_, '_> {
    fn fmt<W: fmt::Write>(&self, f: &mut fmt::Formatter<W>) -> fmt::Result {
        let claim = &self.case.asked.question.first;
        match self.why {
            Why::Pure(i) => match claim.pures.get(i) {
                Some(Pure::Same(x, y)) => self.same(f, *x, *y),
                Some(Pure::Other(x, y)) => self.other(f, *x, *y),
                None => f.write_str("a part isn't so"),
            },
            Why::Stuck(i, stuck) => match claim.atoms.get(i) {
                Some(Atom::Cell(x, y)) => self.cell(f, *x, *y),
                Some(Atom::Row(x, y)) => self.row(f, *x, *y, stuck),
                None => f.write_str("a part isn't so"),
            },
            Why::LeftOver(i) => self.left_over(f, i),
        }
    }
}

// Why the claim of the case doesn't hold.
pub fn sentence(heap: Global, case: &Case, why: Why) -> Result<String, AllocError> {
    let reason = Reason { case, why };
    format!(in heap; "{reason}")
}
