// What `check` answers on small questions.
//
// A claim is how many names, how many same and other, how many cells and rows, and then these: 0 same, 1 other,
// 2 cell, 3 row, each with two names.
use crate::checks::{Refusal, check as check_claim};
use crate::deals::Why;
use claims::Place;
use std::process::Abort;

// The answer is this one, and the words lent are as they were.
fn answers(
    rt: &impl Abort,
    claim: &[u32],
    names: &[u32],
    memory: &[u32],
    answer: Result<Result<(), Why>, Refusal>,
    what: &str,
) {
    let mut work = [1, 0, 7];
    assert_eq!(rt;
        check_claim(claim, names, memory, &mut work),
        answer,
        "{what}"
    );
    assert!(rt; work[0] == 1 && work[1] == 0 && work[2] == 7, "{what}");
}

#[test]
fn claims_that_hold(rt: HostRuntime) {
    answers(
        &rt,
        &[1, 0, 0],
        &[0],
        &[],
        Ok(Ok(())),
        "an empty claim, an empty memory",
    );
    answers(
        &rt,
        &[1, 0, 1, 3, 0, 0],
        &[0],
        &[],
        Ok(Ok(())),
        "a row from nowhere to nowhere",
    );
    let twice = [4, 0, 2, 3, 1, 3, 3, 1, 2];
    answers(
        &rt,
        &twice,
        &[0, 1, 2, 1],
        &[1, 2],
        Ok(Ok(())),
        "two rows from one name, one empty",
    );
    let third = [4, 2, 1, 0, 1, 3, 0, 2, 3, 3, 1, 2];
    answers(
        &rt,
        &third,
        &[0, 7, 7, 7],
        &[],
        Ok(Ok(())),
        "the ends are the same as a third",
    );
    let row = [3, 0, 1, 3, 1, 2];
    answers(
        &rt,
        &row,
        &[0, 1, 9],
        &[2, 9, 1, 2],
        Ok(Ok(())),
        "no cell is where the row ends",
    );
}

#[test]
fn claims_that_fail(rt: HostRuntime) {
    let to_a_place = Ok(Err(Why::Stuck(0, Place(0))));
    answers(
        &rt,
        &[2, 0, 1, 3, 0, 1],
        &[0, 5],
        &[],
        to_a_place,
        "a row from nowhere to a place",
    );
    let round = Ok(Err(Why::Stuck(0, Place(1))));
    answers(
        &rt,
        &[3, 0, 1, 3, 1, 2],
        &[0, 1, 2],
        &[1, 1],
        round,
        "a row round a cell that leads to itself",
    );
    let again = Ok(Err(Why::Stuck(1, Place(1))));
    answers(
        &rt,
        &[3, 0, 2, 2, 1, 2, 2, 1, 2],
        &[0, 1, 2],
        &[1, 2],
        again,
        "one cell for two",
    );
    let past = Ok(Err(Why::LeftOver(1)));
    answers(
        &rt,
        &[3, 0, 1, 3, 1, 2],
        &[0, 1, 2],
        &[1, 2, 2, 0],
        past,
        "a cell behind the end of the row",
    );
    let left = Ok(Err(Why::LeftOver(0)));
    answers(&rt, &[2, 0, 0], &[0, 1], &[1, 2], left, "a cell left over");
    let pure = Ok(Err(Why::Pure(1)));
    answers(
        &rt,
        &[2, 2, 0, 1, 0, 1, 0, 0, 1],
        &[0, 4],
        &[],
        pure,
        "an other that is true, a same that is false",
    );
}

#[test]
fn words_that_ask_nothing(rt: HostRuntime) {
    answers(
        &rt,
        &[1, 0, 0],
        &[0],
        &[1, 2, 1, 3],
        Err(Refusal::NoMemory),
        "one place twice",
    );
    answers(
        &rt,
        &[1, 0, 0],
        &[0],
        &[0, 2],
        Err(Refusal::NoMemory),
        "a cell nowhere",
    );
    answers(
        &rt,
        &[1, 0, 0],
        &[0],
        &[1, 2, 3],
        Err(Refusal::NoMemory),
        "half a cell",
    );
    answers(
        &rt,
        &[2, 0, 0],
        &[0],
        &[],
        Err(Refusal::NoMemory),
        "a name without a word",
    );
    answers(
        &rt,
        &[1, 0, 0, 0],
        &[0],
        &[],
        Err(Refusal::NoClaim),
        "a word too many",
    );
    answers(&rt, &[0, 0, 0], &[], &[], Err(Refusal::NoClaim), "no names");
    answers(
        &rt,
        &[],
        &[],
        &[1, 2, 3, 4, 5, 6, 7, 8],
        Err(Refusal::Few),
        "four cells, three words lent",
    );
}
