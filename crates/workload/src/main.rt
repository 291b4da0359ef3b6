// A workload for the benchmark: a window with a given number of replies goes through rounds of one kind of call. What came of them is
// printed as a checksum, so that no compiler may leave any of it out.
//     workload replies|means|mean-squares STANDING ROUNDS
#![tactic(auto)]

mod rounds;

use crate::rounds::{Rounds, named};
use std::{env, io};
use window::average::Average;

#[derive(Clone, Copy)]
struct Plan {
    average: Option<Average>,
    standing: u32,
    rounds: u32,
}

// A number, or 0 for any other word and for none.
fn number(word: Option<String>) -> u32 {
    word.and_then(|word| word.parse().ok()).unwrap_or(0)
}

// From the words after the program's own name.
fn planned(rt: &HostRuntime) -> io::Result<Plan> {
    let mut words = env::args(rt)?.skip(1);
    Ok(Plan {
        average: words.next().and_then(|word| named(word.as_str())),
        standing: number(words.next()),
        rounds: number(words.next()),
    })
}

fn main(rt: HostRuntime) -> io::Result<()> {
    let Plan {
        average,
        standing,
        rounds,
    } = planned(&rt)?;
    let mut work = Rounds::new();
    work.fill(standing);
    for round in 0..rounds {
        work.turn(average, round);
    }
    let checksum = work.checksum();
    println!(rt; "{standing} replies, {rounds} rounds: {checksum}")
}
