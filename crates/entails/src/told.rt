// Names and a memory, as they are told where a claim doesn't follow.
ghost use Rattle.std.specs.Prelude.{◌≡◌, ◌*◌, ◌≤◌, length, take};

// What each name stands for, and place and where it leads for each cell. An array with a count, since nothing here has a heap,
// and words, since they are handed out as such.
#[derive(Clone, Copy)]
pub struct Told {
    pub names: [u32; 64],
    pub cells: [u32; 256],
    pub count: usize,
    ghost all: { length names ≡ 64 },
    ghost room: { length cells ≡ 256 },
    ghost few: { count ≤ 128 },
}

impl Told {
    // The words of the memory.
    pub fn memory(&self) -> &[u32]
        ensures { result.now ≡ take (2 * self.now.count) self.now.cells }
    {
        &self.cells[0..2 * self.count]
    }
}
