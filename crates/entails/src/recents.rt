// The last pairs of names of which a side couldn't be: it is likely that they matter again.

#[derive(Clone, Copy, Default)]
pub struct Recent {
    pub pairs: [Option<(u8, u8)>; 8],
}

impl Recent {
    // Puts a pair in front.
    pub fn note(&mut self, x: u8, y: u8) {
        let pair = Some((x, y));
        let last = self.pairs.iter().position(|old| *old == pair).unwrap_or(7);
        self.pairs[..=last].rotate_right(1);
        self.pairs[0] = pair;
    }
}
