// Which of the first claim's atoms are used up.
ghost use Rattle.std.specs.Prelude.{◌≡◌, length};

// Is it used, for each atom by its number? Marks beside the atoms, since nothing here has a heap.
#[derive(Clone, Copy)]
pub struct Used {
    pub marks: [bool; 64],
    ghost all: { length marks ≡ 64 },
}
