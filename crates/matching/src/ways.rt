// Ways over the atoms that are still there: they guide a walk where several atoms begin, and nothing is promised of them.
ghost use Rattle.std.specs.Prelude.{◌≡◌, ◌<◌, ◌≤◌, true};
ghost use Rattle.matching.specs.Using.{Begins};

use crate::rests::Rest;
use linked::bits::NameMask;

impl<'a> Rest<'a> {
    // Is the atom number e still there, and does it begin at s?
    pub fn begins(&self, e: usize, s: u8) -> bool
        requires { e < self.now.own }
        ensures { result ≡ true → Begins self.now s e }
    {
        !self.used.has(e) && self.live.get(e).start().0 == s
    }

    // How many atoms that are still there begin at s?
    pub fn ways(&self, s: u8) -> usize {
        (0..self.own).filter(|e| self.begins(*e, s)).count()
    }

    // The names with the ends of those that begin at one of them, but for the atom number e.
    fn further(&self, e: usize, mut names: NameMask) -> NameMask
        ensures { names.0 ≤ result.0 }
    {
        for (j, atom) in self.live.as_slice()[..self.own].iter().enumerate() {
            if j != e && !self.used.has(j) && names.has(atom.start().0) {
                names = names.with(atom.end().0);
            }
        }
        names
    }

    // Does a way lead to t from the end of the atom number e, over others?
    pub fn leads(&self, e: usize, t: u8) -> bool
        requires { e < self.now.own }
    {
        let mut names = NameMask::new().with(self.live.get(e).end().0);
        'again: loop {
            if names.has(t) {
                return true;
            }
            let more = self.further(e, names);
            if more != names {
                names = more;
                continue 'again;
            }
            return false;
        }
    }
}
