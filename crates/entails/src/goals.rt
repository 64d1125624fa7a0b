// A question as values.
ghost use Rattle.claims.specs.Decoding.{decoded_claim};
ghost use Rattle.claims.specs.Words.{Limits};
ghost use Rattle.entails.specs.Proposition.{Limits-prop};

use claims::Decoded;

// How many names there are, and the parts of both claims: does the first say the second? The marks are handed on beside it: a
// struct that holds them by `&mut` would need *the question is unchanged* in every contract.
#[derive(Clone, Copy)]
pub struct Goal {
    pub names: u8,
    pub first: Decoded,
    pub second: Decoded,
    ghost limits: { Limits (record { names = names; first = decoded_claim first; second = decoded_claim second }) } by { Limits-prop _ },
}
