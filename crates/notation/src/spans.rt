// Stretches of a text, by their bytes.
ghost use Rattle.std.specs.Prelude.{◌≡◌, Decides};
ghost use Rattle.std.specs.List.{between};

// The bytes from `start` up to `end`, and not `end` itself.
#[derive(Clone, Copy)]
pub struct Span {
    pub start: usize,
    pub end: usize,
}

impl Span {
    // The bytes of the text that the span covers, as far as the text goes.
    pub fn of(self, text: &[u8]) -> &[u8]
        ensures { result.now ≡ between self.start self.end text.now }
    {
        let end = self.end.min(text.len());
        let start = self.start.min(end);
        &text[start..end]
    }

    // Is that what it covers in the text?
    pub fn spells(self, text: &[u8], spelled: &[u8]) -> bool
        ensures { Decides result (between self.start self.end text.now ≡ spelled.now) }
    {
        self.of(text) == spelled
    }
}
