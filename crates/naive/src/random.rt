// Numbers that look random and are the same in every run: xorshift64*. A library's would be others, and so make other
// questions than those that `compare` counts.
ghost use Rattle.std.specs.Prelude.{◌<◌};

#[derive(Drop)]
pub struct Random {
    state: u64,
}

impl Random {
    // From a state of 0 only 0 would come, so the last bit is set.
    pub fn new(seed: u64) -> Random {
        Random { state: seed | 1 }
    }

    fn next(&mut self) -> u64 {
        let mut x = self.state;
        x ^= x >> 12;
        x ^= x << 25;
        x ^= x >> 27;
        self.state = x;
        x.wrapping_mul(0x2545_F491_4F6C_DD1D)
    }

    // A number below n. That n isn't 0 is asked for here and below: mostly it is a numeral, and a type that says so would be made
    // of it at each call all the same.
    pub fn below(&mut self, n: u32) -> u32
        requires { 0 < n }
        ensures { result < n }
    {
        // the upper half is the better one
        ((self.next() >> 32) % u64::from(n)) as u32
    }

    // An index into something that has n elements.
    pub fn index(&mut self, n: usize) -> usize
        requires { 0 < n }
        ensures { result < n }
    {
        (self.next() >> 32) as usize % n
    }

    // True once in n times.
    pub fn once_in(&mut self, n: u32) -> bool
        requires { 0 < n }
    {
        self.below(n) == 0
    }
}
