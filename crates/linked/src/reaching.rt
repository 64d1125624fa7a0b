// What is reached from a name over the cells and rows other than one.
ghost use Rattle.std.specs.Prelude.{◌≡◌, ◌<◌, ◌≤◌};
ghost use Rattle.linked.specs.Living.{atoms_of};
ghost use Rattle.linked.specs.Reaching.{Reached};

use crate::atoms::Live;
use crate::bits::NameMask;
use claims::Atom;

// The names that are reached from one without the atom of a number.
#[derive(Clone, Copy)]
pub struct Reach<'a> {
    pub live: &'a Live,
    pub without: usize,
    pub from: u8,
    pub names: NameMask,
    ghost reached: { Reached (atoms_of live.now) without from names.0 },
}

impl Live {
    // The names that are reached from s without the atom number e.
    pub fn reach(&self, e: usize, s: u8) -> Reach<'_>
        requires { s < 64 }
        ensures live { result.live.now ≡ self.now }
        ensures without { result.without ≡ e }
        ensures from { result.from ≡ s }
    {
        let mut names = NameMask::new().with(s);
        'again: loop {
            let reach = Reach {
                live: self,
                without: e,
                from: s,
                names,
            };
            names = reach.swept();
            if names != reach.names {
                continue 'again;
            }
            return reach;
        }
    }
}

impl Reach<'_> {
    // The names after one sweep over the rows: with the end of each that begins at one that is reached.
    fn swept(&self) -> NameMask
        ensures reached { Reached (atoms_of self.now.live.now) self.now.without self.now.from result.0 }
        ensures grows { self.now.names.0 ≤ result.0 }
    {
        let mut names = self.names;
        for (j, atom) in self.live.as_slice().iter().enumerate() {
            if j == self.without {
                continue;
            }
            let Atom::Row(x, y) = *atom else {
                continue;
            };
            if !names.has(x.0) {
                continue;
            }
            names = names.with(y.0);
        }
        names
    }
}
