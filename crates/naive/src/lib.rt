// A second answer to the question whether one claim says another, to compare the decision procedure with.
//
// It is deliberately naive and shares nothing with the procedure but the words of a question: it goes through the
// memories of which the first claim holds, up to eight cells, and for each through all ways of dealing its cells out
// to the second claim. Nothing here is quick, and nothing needs more than the definitions to be believed.
//
// `random` and `making` make questions, `reading` reads their words into plain lists (`parts`), `cells` is a memory,
// `dealing` asks whether a claim holds of one, `trying` goes through the memories, `telling` checks one that somebody
// else told, and `judging` judges answers by these two. `worked` has questions whose answers are known.
#![tactic(auto)]

pub mod cells;
pub mod dealing;
pub mod judging;
pub mod making;
pub mod parts;
pub mod random;
pub mod reading;
pub mod telling;
pub mod trying;
pub mod worked;

pub use judging::{Answer, Tally};
pub use making::make;
pub use parts::Question;
pub use random::Random;
pub use reading::read;
pub use worked::{WORKED, Worked, round};
