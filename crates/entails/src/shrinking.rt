// Making a told memory small, for people's sake: the ends of rows are tried as the same, as long as that leaves a memory
// with fewer cells that is still against it. Of how small it gets nothing is promised.
ghost use Rattle.std.specs.Prelude.{◌<◌, ◌≤◌, IfSome, length};
ghost use Rattle.entails.specs.Telling.{ToldAgainst, TrialAgainst};

use crate::goals::Goal;
use crate::stretches::Trial;
use crate::told::Told;
use crate::trials::write;
use crate::wishing::wish;
use claims::Atom;
use linked::known::Known;

// So many memories are tried at the most.
const TRIALS: usize = 32;

// With x and y the same, or nothing if they can't be: what is known then is a copy, and a caller that has it keeps it. That names
// are below 64 is tested wherever nothing is promised: nothing is asked of such a function either, so that it has no fact about
// names.
fn joined(known: &Known, x: u8, y: u8) -> Option<Known> {
    if x >= 64 || y >= 64 {
        return None;
    }
    known.join(x, y)
}

// What is known of names that stand for the same in what is told.
fn told_same(told: &Told, names: u8) -> Known {
    let mut known = Known::new();
    for (x, place) in (0..names).zip(&told.names) {
        let Ok(place) = u8::try_from(*place) else {
            continue;
        };
        if let Some(more) = joined(&known, x, place) {
            known = more;
        }
    }
    known
}

// With the ends of a row the same, or nothing if they can't be.
fn emptied_row(known: &Known, atom: Atom) -> Option<Known> {
    match atom {
        Atom::Cell(_, _) => None,
        Atom::Row(x, y) => joined(known, x.0, y.0),
    }
}

// With the ends of these rows the same, if they may be.
fn emptied(known: &Known, atoms: &[Atom]) -> Known {
    let mut more = *known;
    for atom in atoms {
        if let Some(joined) = emptied_row(&more, *atom) {
            more = joined;
        }
    }
    more
}

// Is it a row that is known to be empty?
fn is_empty(atom: Atom, known: &Known) -> bool {
    matches!(atom, Atom::Row(x, y) if x.0 < 64 && y.0 < 64 && known.same(x.0, y.0))
}

// How many rows and cells aren't known to be empty?
fn full(atoms: &[Atom], known: &Known) -> usize {
    atoms.iter().filter(|atom| !is_empty(**atom, known)).count()
}

impl Goal {
    // What is told of a trial that is against it.
    pub fn told(&self, trial: &Trial) -> Told
        requires { TrialAgainst self.now trial.now }
        ensures { ToldAgainst self.now result }
    {
        write(trial, self.first.atoms())
    }

    // A memory with fewer cells, if one is found where this is known of names.
    fn smaller(&self, known: &Known, told: &Told, marks: &mut [u32]) -> Option<Told>
        requires { 128 ≤ length marks.old }
        ensures { IfSome result (ToldAgainst self.now) }
    {
        let wish = wish(self.names, self.second.pures(), &self.whole(known), known);
        self.show(known, wish.detour, marks)
            .err()
            .map(|trial| self.told(&trial))
            .filter(|trial| trial.count < told.count)
    }

    // One round over the rows, so many at a time, with what is known of names in what is told; answers how many trials are left.
    fn round(
        &self,
        mut known: Known,
        size: usize,
        mut trials: usize,
        told: &mut Told,
        marks: &mut [u32],
    ) -> usize
        requires some { 0 < size }
        requires room { 128 ≤ length marks.old }
        requires against { ToldAgainst self.now told.old }
        ensures { ToldAgainst self.now told.new }
    {
        let atoms = self.first.atoms();
        for rows in atoms.chunks(size) {
            if trials == 0 {
                break;
            }
            let more = emptied(&known, rows);
            if full(atoms, &more) == full(atoms, &known) {
                continue;
            }
            trials -= 1;
            if let Some(trial) = self.smaller(&more, told, marks) {
                known = more;
                *told = trial;
            }
        }
        trials
    }

    // What is told, made small.
    pub fn shrink(&self, mut told: Told, marks: &mut [u32]) -> Told
        requires room { 128 ≤ length marks.old }
        requires against { ToldAgainst self.now told }
        ensures { ToldAgainst self.now result }
    {
        let mut trials = TRIALS;
        let mut known = told_same(&told, self.names);
        for size in [16, 4, 1] {
            let cells = told.count;
            trials = self.round(known, size, trials, &mut told, marks);
            // else the same is told as before, and the same is known of its names
            if told.count < cells {
                known = told_same(&told, self.names);
            }
        }
        told
    }
}
