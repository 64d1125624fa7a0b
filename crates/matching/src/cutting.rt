// Cutting a part of a question into parts that have no name in common.
//
// Cells and rows that share no name but nowhere say nothing of each other, so they can be settled one after the other,
// where together they would have to be gone through in all combinations. Which atoms go together is free of proof: any
// cut is right.
ghost use Rattle.std.specs.Prelude.{◌+◌, ◌≤◌};
ghost use Rattle.matching.specs.Parting.{Only, CutSo};

use crate::dividing::{append, divide};
use crate::parts::Part;
use crate::used::Used;
use claims::Name;
use linked::atoms::Live;
use linked::bits::NameMask;

// The names of the set, and of all atoms of the list that hang together with them in one sweep. Nowhere holds nothing together.
fn sweep(list: &Live, mut names: NameMask) -> NameMask
    ensures { names.0 ≤ result.0 }
{
    for atom in list.as_slice() {
        let x = atom.start().0;
        let y = atom.end().0;
        if (x != 0 && names.has(x)) || (y != 0 && names.has(y)) {
            names = names.with(x).with(y);
        }
    }
    names
}

// Nowhere and the names that hang together with the first atom's, over own and wanted atoms.
fn together(part: &Part) -> Option<NameMask> {
    let own = part.own.as_slice().first();
    let first = own.or(part.wanted.as_slice().first())?;
    let mut names = NameMask::new()
        .with(0)
        .with(first.start().0)
        .with(first.end().0);
    'again: loop {
        let more = sweep(&part.wanted, sweep(&part.own, names));
        if more != names {
            names = more;
            continue 'again;
        }
        return Some(names);
    }
}

// Marks on the atoms that have a name in the set besides nowhere, and on those that have none but nowhere.
fn marks(list: &Live, names: NameMask) -> Used {
    let mut marks = Used::new();
    for (j, atom) in list.as_slice().iter().enumerate() {
        let name = if atom.start() == Name(0) {
            atom.end()
        } else {
            atom.start()
        };
        if names.has(name.0) {
            marks.add(j);
        }
    }
    marks
}

impl Part {
    // The part with these of its own and wanted atoms; its other atoms go to the others.
    fn with_only(&self, own: Live, rest: &Live, wanted: Live) -> Part
        requires { own.count + rest.now.count + self.now.others.count ≤ 64 }
        ensures { Only self.now own rest.now wanted result }
    {
        let others = append(&self.others, rest);
        Part {
            own,
            others,
            wanted,
        }
    }

    // In two parts, if it hangs together in more than one.
    pub fn cut(&self) -> Option<(Part, Part)>
        ensures { CutSo self.now result }
    {
        let names = together(self)?;
        let (own_rest, own_one) = divide(&self.own, &marks(&self.own, names));
        let (wanted_rest, wanted_one) = divide(&self.wanted, &marks(&self.wanted, names));
        if own_rest.count + wanted_rest.count == 0 || own_one.count + wanted_one.count == 0 {
            return None;
        }
        let one = self.with_only(own_one, &own_rest, wanted_one);
        let rest = self.with_only(own_rest, &own_one, wanted_rest);
        Some((one, rest))
    }
}
