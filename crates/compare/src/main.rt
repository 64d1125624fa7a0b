// The program `compare`: has questions decided, and judges the answers by going through memories. It prints what came
// out, and ends with an error if an answer is not what it must be.
#![tactic(auto)]

use entails::deciding::LENT;
use entails::{Decided, decide};
use naive::worked::Expected;
use naive::{Answer, Random, Tally, WORKED, Worked, make, read, round};
use std::alloc::{AllocError, Global};
use std::process::ExitCode;

const QUESTIONS: u32 = 3000;

const SEED: u64 = 2004;

const ROUND: &str = "row 1 2, row 2 3, .., row 62 63, row 63 1 : row 1 1";

// What is lent to the procedure: room for a memory, one word for each name and four for each cell and row of the first
// claim, and words to work with.
#[derive(Drop)]
struct Room {
    out: Vec<u32>,
    work: Vec<u32>,
}

impl Room {
    fn new(heap: Global) -> Result<Room, AllocError> {
        Ok(Room {
            out: vec![in heap; 0; 320]?,
            work: vec![in heap; 0; LENT]?,
        })
    }

    fn ask(&mut self, words: &[u32]) -> Answer {
        match decide(words, self.out.as_mut_slice(), self.work.as_mut_slice()) {
            Decided::Follows => Answer::Follows,
            Decided::Fails(cells) => Answer::Fails(cells),
            Decided::OutFull | Decided::NoClaims | Decided::Few => Answer::Nothing,
        }
    }
}

// A question whose answer is known: true, if it comes out, and a memory that is told is one against it.
fn ask_known(rt: &HostRuntime, room: &mut Room, worked: &Worked) -> anyhow::Result<bool> {
    let answer = room.ask(worked.words);
    println!(rt; "{}: {answer}", worked.says)?;
    let question = read(rt.alloc(), worked.words)?;
    let right = worked.expected.admits(answer)
        && Tally::default().judge(&question, answer, room.out.as_slice());
    if !right {
        println!(rt; "  which is wrong")?;
    }
    Ok(right)
}

// All questions whose answers are known: true, if each comes out.
fn ask_worked(rt: &HostRuntime, room: &mut Room) -> anyhow::Result<bool> {
    let mut right = true;
    for worked in &WORKED {
        right &= ask_known(rt, room, worked)?;
    }
    let words = round(rt.alloc())?;
    let round = Worked {
        says: ROUND,
        words: words.as_slice(),
        expected: Expected::Just(Answer::Fails(2)),
    };
    Ok(ask_known(rt, room, &round)? && right)
}

// Questions made at random.
fn ask_made(rt: &HostRuntime, room: &mut Room) -> anyhow::Result<Tally> {
    let mut random = Random::new(SEED);
    let mut tally = Tally::default();
    for _ in 0..QUESTIONS {
        let words = make(rt.alloc(), &mut random)?.words(rt.alloc())?;
        let answer = room.ask(words.as_slice());
        let question = read(rt.alloc(), words.as_slice())?;
        if !tally.judge(&question, answer, room.out.as_slice()) {
            println!(rt; "differs: {words:?}: {answer}")?;
        }
    }
    Ok(tally)
}

fn main(rt: HostRuntime) -> anyhow::Result<ExitCode> {
    let mut room = Room::new(rt.alloc())?;
    let right = ask_worked(&rt, &mut room)?;
    let tally = ask_made(&rt, &mut room)?;
    println!(rt; "{tally}")?;
    if right && tally.differ == 0 {
        Ok(ExitCode::SUCCESS)
    } else {
        // what is wrong is out already
        Ok(ExitCode::FAILURE)
    }
}
