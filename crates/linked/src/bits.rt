// Sets of names, with a bit for each of 64 names.
ghost use Rattle.std.specs.Prelude.{◌≡◌, ℕ, ◌<◌, ◌≤◌, true, false, ◌||◌, ◌==◌};
ghost use Rattle.linked.specs.Bits.{bit, has as is-in};

// As one number.
#[derive(Clone, Copy, PartialEq, Eq)]
pub struct NameMask(pub u64);

impl NameMask {
    pub fn new() -> NameMask
        ensures { (x : ℕ) → bit result.0 x ≡ false }
    {
        NameMask(0)
    }

    pub fn has(self, x: u8) -> bool
        ensures { x < 64 → result ≡ bit self.0 x }
    {
        self.0.wrapping_shr(u32::from(x)) & 1 == 1
    }

    // The set with one more name.
    pub fn with(self, x: u8) -> NameMask
        ensures bits { x < 64 → (y : ℕ) → bit result.0 y ≡ (bit self.0 y || y == x) }
        ensures grows { self.0 ≤ result.0 }
    {
        NameMask(self.0 | 1u64.wrapping_shl(u32::from(x)))
    }

    // Do the two have a name in common?
    pub fn meets(self, other: NameMask) -> bool
        ensures { result ≡ true → (x : ℕ) × (x < 64) × (bit self.0 x ≡ true) × (bit other.0 x ≡ true) }
    {
        self.0 & other.0 != 0
    }
}

// As two words of 32 bits, for what is known other. Their bits are set and tested as they are, and not by way of a mask: a rule
// here (docs/DECISIONS.md, Forms).
#[derive(Clone, Copy)]
pub struct NameSet {
    low: u32,
    high: u32,
}

fn bit_of(w: u32, k: u8) -> bool
    requires { k < 32 }
    ensures { result ≡ bit w k }
{
    (w >> k) & 1 == 1
}

fn with_bit(w: u32, k: u8) -> u32
    requires { k < 32 }
    ensures { (j : ℕ) → bit result j ≡ (bit w j || j == k) }
{
    w | (1 << k)
}

impl NameSet {
    pub fn new() -> NameSet
        ensures { (x : ℕ) → is-in result x ≡ false }
    {
        NameSet { low: 0, high: 0 }
    }

    // The set as one number.
    pub fn mask(self) -> NameMask
        ensures { (x : ℕ) → bit result.0 x ≡ is-in self x }
    {
        NameMask(u64::from(self.low) | (u64::from(self.high) << 32))
    }

    pub fn has(&self, x: u8) -> bool
        requires { x < 64 }
        ensures { result ≡ is-in self.now x }
    {
        if x < 32 {
            bit_of(self.low, x)
        } else {
            bit_of(self.high, x - 32)
        }
    }

    pub fn with(self, x: u8) -> NameSet
        requires { x < 64 }
        ensures { (y : ℕ) → is-in result y ≡ (is-in self y || y == x) }
    {
        if x < 32 {
            NameSet {
                low: with_bit(self.low, x),
                high: self.high,
            }
        } else {
            NameSet {
                low: self.low,
                high: with_bit(self.high, x - 32),
            }
        }
    }

    pub fn union(self, other: NameSet) -> NameSet
        ensures { (y : ℕ) → is-in result y ≡ (is-in self y || is-in other y) }
    {
        NameSet {
            low: self.low | other.low,
            high: self.high | other.high,
        }
    }
}
