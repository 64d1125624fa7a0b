// Knowledge of names, and what a claim lets one know: the first half of deciding whether one claim says another.
//
// `known` is what is known of names: which are the same, each class with a name that stands for it, and which are
// other. `facts` asks and changes it, exactly. `assume` takes up a claim's same and other; `propagate` draws from its
// cells and rows what must be the same, till nothing new comes, by a look (`steps`) at each of a `view`, the live ones with what
// is known, and at what is reached from where it begins (`reaching`, `barring`); `learn` does both for a whole claim. Where nothing
// `forks` and its same and other are known, the claim holds of a memory that is made of what is known; `settle` tells whether
// that is so.
#![tactic(auto)]

pub mod assume;
pub mod atoms;
pub mod barring;
pub mod bits;
pub mod carries;
pub mod facts;
pub mod forks;
pub mod known;
pub mod learn;
pub mod living;
pub mod propagate;
pub mod reaching;
pub mod settle;
pub mod steps;
pub mod view;
