// How long a claim's words are.
ghost use Rattle.std.specs.Prelude.{◌≡◌, ◌+◌, ◌*◌, ◌≤◌};

// How many parts of both kinds a claim has, within the limits of a claim.
#[derive(Clone, Copy, Debug, PartialEq, Eq)]
pub struct Shape {
    pub pures: usize,
    pub atoms: usize,
    ghost few_pures: { pures ≤ 256 },
    ghost few_atoms: { atoms ≤ 64 },
}

impl Shape {
    // How many words the claim has: two counts, and three for each part.
    pub fn len(&self) -> usize
        ensures { result ≡ 2 + 3 * (self.now.pures + self.now.atoms) }
    {
        2 + 3 * (self.pures + self.atoms)
    }
}
