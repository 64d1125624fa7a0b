// A memory to try, by how it is written down.
ghost use Rattle.std.specs.Prelude.{◌≡◌, length};

// The row of this number goes through a place.
#[derive(Clone, Copy)]
pub struct Stretch {
    pub row: usize,
    pub through: u32,
}

// Where each name is, and the row that goes through a place, if one does. The cells follow from that, and don't stand here: a
// search hands it on through many calls.
#[derive(Clone, Copy)]
pub struct Trial {
    pub names: [u32; 64],
    pub stretch: Option<Stretch>,
    ghost all: { length names ≡ 64 },
}
