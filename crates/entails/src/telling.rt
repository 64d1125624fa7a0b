// Writing down names and a memory.
ghost use Rattle.std.specs.Prelude.{◌≡◌, ◌+◌, ◌<◌, ◌≤◌, [], ◌∷◌, ◌++◌};
ghost use Rattle.claims.specs.Meaning.{atom_of};
ghost use Rattle.linked.specs.Stands.{root};
ghost use Rattle.models.specs.Generic.{linked, linked_through};
ghost use Rattle.matching.specs.Rules.{StandsAt};
ghost use Rattle.entails.specs.Telling.{told_memory};

use crate::told::Told;
use claims::Atom;
use linked::known::Known;
use memory::walks::at;

// The number of the name that stands for x, or nowhere if there are not so many names.
fn place_of(known: &Known, x: u8, names: u8) -> u32
    requires some { 1 ≤ names }
    requires small { x < 64 }
    ensures root { x < names → result ≡ root known.now.stands x }
    ensures below { result < names }
{
    if x < names {
        u32::from(known.find(x))
    } else {
        0
    }
}

// Each of so many names at the number of the one that stands for it.
pub fn places(known: &Known, names: u8) -> [u32; 64]
    requires some { 1 ≤ names }
    requires few { names ≤ 64 }
    ensures { StandsAt names known.now result }
{
    let mut places = [0; 64];
    // an index, since of a call in `array::from_fn` a proof can't reach a clause that says *if*, as `place_of` has
    for x in 0..64u8 {
        places[x as usize] = place_of(known, x, names);
    }
    places
}

impl Told {
    // The names and no cells.
    pub fn new(names: &[u32; 64]) -> Told
        ensures names { result.names ≡ names.now }
        ensures none { result.count ≡ 0 }
    {
        Told {
            names: *names,
            cells: [0; 256],
            count: 0,
        }
    }

    // One cell more.
    fn push(&mut self, place: u32, leads: u32)
        requires { self.old.count < 128 }
        ensures names { self.new.names ≡ self.old.names }
        ensures cell { told_memory self.new ≡ told_memory self.old ++ record { place = place; holds = leads } ∷ [] }
        ensures count { self.new.count ≡ self.old.count + 1 }
    {
        let i = 2 * self.count;
        self.cells[i] = place;
        self.cells[i + 1] = leads;
        self.count += 1;
    }

    // A cell for the atom, unless it is an empty row.
    pub fn link(&mut self, atom: Atom)
        requires { self.old.count < 127 }
        ensures names { self.new.names ≡ self.old.names }
        ensures cells { told_memory self.new ≡ told_memory self.old ++ linked self.old.names (atom_of atom) }
        ensures count { self.new.count ≤ self.old.count + 2 }
    {
        let from = at(&self.names, atom.start());
        let to = at(&self.names, atom.end());
        if matches!(atom, Atom::Row(_, _)) && from == to {
            return;
        }
        self.push(from.0, to.0);
    }

    // The same, but two cells through a place for a row that isn't empty.
    pub fn link_through(&mut self, atom: Atom, through: u32)
        requires { self.old.count < 127 }
        ensures names { self.new.names ≡ self.old.names }
        ensures cells { told_memory self.new ≡ told_memory self.old ++ linked_through self.old.names (atom_of atom) through }
        ensures count { self.new.count ≤ self.old.count + 2 }
    {
        match atom {
            Atom::Cell(_, _) => self.link(atom),
            Atom::Row(x, y) => {
                let from = at(&self.names, x).0;
                let to = at(&self.names, y).0;
                if from != to {
                    self.push(from, through);
                    self.push(through, to);
                }
            }
        }
    }
}
