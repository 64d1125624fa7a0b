// Lists of atoms, put together and taken apart.
ghost use Rattle.std.specs.Prelude.{◌≡◌, ◌+◌, ◌<◌, ◌≤◌, ◌++◌};
ghost use Rattle.linked.specs.Living.{Lives, atoms_of};
ghost use Rattle.matching.specs.Parting.{Divided, whole_of};

use crate::parts::Part;
use crate::used::Used;
use linked::atoms::Live;
use linked::known::Known;

// One list behind the other.
pub fn append(front: &Live, back: &Live) -> Live
    requires { front.now.count + back.now.count ≤ 64 }
    ensures all { atoms_of result ≡ atoms_of front.now ++ atoms_of back.now }
    ensures count { result.count ≡ front.now.count + back.now.count }
{
    let mut all = *front;
    for atom in back.as_slice() {
        all = all.with(*atom);
    }
    all
}

// Those that are not marked, and those that are.
pub fn divide(list: &Live, marks: &Used) -> (Live, Live)
    ensures { Divided list.now marks.now result.0 result.1 }
{
    let mut free = Live::new();
    let mut marked = Live::new();
    for (j, atom) in list.as_slice().iter().enumerate() {
        if marks.has(j) {
            marked = marked.with(*atom);
        } else {
            free = free.with(*atom);
        }
    }
    (free, marked)
}

// By the names that stand for their ends, and without rows that are known to be empty.
#[tactic(auto, using(crate::proofs::Lists::slice_below))]
pub fn renamed(list: &Live, known: &Known) -> Live
    ensures lives { Lives known.now (atoms_of list.now) (atoms_of result) }
    ensures no_more { result.count ≤ list.now.count }
{
    Live::of(list.as_slice(), known)
}

impl Part {
    // All atoms of the first claim, the part's own in front.
    pub fn whole(&self) -> Live
        ensures all { atoms_of result ≡ whole_of self.now }
        ensures count { result.count ≡ self.now.own.count + self.now.others.count }
    {
        append(&self.own, &self.others)
    }
}
