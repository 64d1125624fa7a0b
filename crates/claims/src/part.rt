// What both kinds of a claim's parts have in common: three words, a kind and two names.
ghost use Rattle.std.specs.Prelude.{◌≡◌, ℕ, List, length};
ghost use Rattle.claims.specs.Parts.{PartRead};

pub trait Part: Copy {
    // What a part stands for; of that its words, and that its names are below a number.
    ghost Meaning: { Type 0 };

    ghost meaning: { Self → Meaning };

    ghost words_of: { Meaning → List ℕ };

    ghost Below: { ℕ → Meaning → Type 0 };

    // The part that the words begin with, if its names are below `names`.
    fn read(words: &[u32], names: u8) -> Option<Self>
        ensures { PartRead meaning words_of (Below names) words.now result };

    fn words(self) -> [u32; 3]
        ensures { result ≡ words_of (meaning self) };

    ghost three: { (p : Meaning) → length (words_of p) ≡ 3 };
}
