// A place between the words of a text. What it does is in `tokens`, `faults`, `words`, `lines` and `readers`; the
// struct has a file of its own since the specifications of those contracts name it.
ghost use Rattle.std.specs.Prelude.{◌≤◌, length};

#[derive(Clone, Copy)]
pub struct Scan<'a> {
    pub text: &'a [u8],
    // where the reading goes on
    pub at: usize,
    // where the last word ended that was taken: an error about the end of a line points there
    pub last: usize,
    ghost within: { at ≤ length text.now },
}
