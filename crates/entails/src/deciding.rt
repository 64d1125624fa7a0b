// Does one claim say another? The call that answers, for words of any kind.
ghost use Rattle.std.specs.Prelude.{◌≡◌, ◌+◌, ◌≤◌, ◌++◌, length, take, drop};
ghost use Rattle.entails.specs.Telling.{ToldAgainst};
ghost use Rattle.entails.specs.Deciding.{DecidedPost, Written};

use crate::goals::Goal;
use crate::reading::read_goal;
use crate::told::Told;

// How many words have to be lent.
pub const LENT: usize = 65536;

// An enum with a number, which the programs take apart (docs/DECISIONS.md, Forms).
#[derive(Clone, Copy, Debug, PartialEq, Eq)]
pub enum Decided {
    // The second claim holds of all names and memories of which the first does.
    Follows,
    // It doesn't: out has what each name stands for, and then place and where it leads for so many cells.
    Fails(usize),
    // It doesn't, and out has too few words to tell why.
    OutFull,
    // The words are no question.
    NoClaims,
    // Fewer than `LENT` words are lent.
    Few,
}

// Writes words over those that stand from `from` on.
fn put(out: &mut [u32], from: usize, words: &[u32])
    requires { from + length words.now ≤ length out.old }
    ensures { out.new ≡ take from out.old ++ words.now ++ drop (from + length words.now) out.old }
{
    let part = &mut out[from..from + words.len()];
    part.copy_from_slice(words);
}

// Tells the names and the memory that are against it, if there is room.
fn tell(goal: &Goal, told: &Told, out: &mut [u32]) -> Decided
    requires { ToldAgainst goal.now told.now }
    ensures { Written goal.now out.old out.new result }
{
    let names = usize::from(goal.names);
    let memory = told.memory();
    if out.len() < names + memory.len() {
        return Decided::OutFull;
    }
    put(out, 0, &told.names[0..names]);
    put(out, names, memory);
    Decided::Fails(told.count)
}

// Does the second claim of a question follow from the first? If not, names and a memory that show it are told.
pub fn decide(words: &[u32], out: &mut [u32], work: &mut [u32]) -> Decided
    ensures { DecidedPost words.now (length work.old) out.old out.new result }
{
    if work.len() < LENT {
        return Decided::Few;
    }
    let Some(goal) = read_goal(words) else {
        return Decided::NoClaims;
    };
    match goal.settle(work) {
        Ok(()) => Decided::Follows,
        Err(told) => tell(&goal, &told, out),
    }
}
