// Puts many questions to all three engines. Their estimates may differ inside the band; their whole quotients never do, and
// agree with the machine's own division, and so their rounded quotients never do either.
#![tactic(auto)]

ghost use Rattle.std.specs.Prelude.{◌≡◌};

mod pairs;
mod tally;

use crate::pairs::Random;
use crate::tally::{Tally, Three};
use std::io;

// Fills the tally from a fixed seed, so that each run is the same.
fn surveyed(count: u32) -> Tally
    ensures { (result.quotients ≡ 0) × (result.rounded ≡ 0) }
{
    let mut random = Random::new();
    let mut engines = Three::new();
    let mut tally = Tally::default();
    for _done in 0u32..count {
        tally = engines.compared(tally, random.question());
    }
    tally
}

fn main(rt: HostRuntime) -> io::Result<()> {
    let tally = surveyed(30000);
    let pairs = tally.pairs;
    let radix4 = tally.radix4_estimates;
    let cubic = tally.cubic_estimates;
    let widest = tally.widest;
    let quotients = tally.quotients;
    let rounded = tally.rounded;
    println!(rt; "{pairs} pairs")?;
    println!(rt; "radix4 estimates otherwise than digits: {radix4}")?;
    println!(rt; "cubic estimates otherwise than digits: {cubic}")?;
    println!(rt; "furthest apart: {widest}")?;
    println!(rt; "whole quotients that differ: {quotients}")?;
    println!(rt; "rounded quotients that differ: {rounded}")
}
