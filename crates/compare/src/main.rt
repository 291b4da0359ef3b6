// Puts many quotients, squares, means and mean squares to the product, over its three engines and under its five rules, and to
// another implementation, which looks for the answer among all encodings by exact cross products. Where quotients and squares
// are rounded to even, the machine answers too.
#![tactic(auto)]

mod bench;
mod pairs;
mod questions;
mod random;
mod reference;
mod replies;
mod squares;
mod tally;
mod wide;
mod windows;

use crate::bench::Bench;
use crate::questions::Question;
use crate::random::Random;
use crate::tally::Tally;
use std::io;
use window::average::Average;

#[derive(Clone, Copy, Default)]
struct Tallies {
    quotients: Tally,
    squares: Tally,
    means: Tally,
    mean_squares: Tally,
}

impl Tallies {
    fn compare_means(&mut self, bench: &mut Bench) {
        bench.compare(&mut self.means, Question::Average(Average::Mean));
        bench.compare(
            &mut self.mean_squares,
            Question::Average(Average::MeanSquare),
        );
    }

    // Fills a window and compares; then replies come and go at both ends, and it is compared again.
    fn compare_window(&mut self, bench: &mut Bench, random: &mut Random) {
        let mould = random.mould();
        bench.clear();
        for _taken in 0u32..random.length() {
            bench.take_in(random.reply(mould));
        }
        self.compare_means(bench);
        for _turn in 0u32..3 {
            bench.retire();
            bench.take_in(random.reply(mould));
            bench.take_in(random.reply(mould));
            bench.retract();
            self.compare_means(bench);
        }
    }

    fn compare(&mut self, bench: &mut Bench, random: &mut Random) {
        for _round in 0u32..2000 {
            for _done in 0u32..30 {
                bench.compare(&mut self.quotients, random.quotient());
                bench.compare(&mut self.squares, random.square());
            }
            self.compare_window(bench, random);
        }
    }
}

fn print_counts(rt: &HostRuntime, counts: &[(&str, u32)]) -> io::Result<()> {
    for (what, count) in counts {
        println!(rt; "{what}: {count}")?;
    }
    Ok(())
}

fn print_tally(rt: &HostRuntime, name: &str, tally: &Tally) -> io::Result<()> {
    let counts = [
        (name, tally.questions),
        ("  special", tally.special),
        ("  ties", tally.ties),
        ("  inexact", tally.inexact),
        ("  tiny", tally.tiny),
        ("  overflowed", tally.overflowed),
        ("  wrong if rounded twice", tally.twice),
        ("  inexact for digits cut off", tally.cut),
        ("  estimates above the quotient", tally.overshot),
        ("  differences from the machine", tally.machine),
        ("  differences from the reference", tally.differences),
    ];
    print_counts(rt, &counts)
}

fn main(rt: HostRuntime) -> io::Result<()> {
    let mut tallies = Tallies::default();
    tallies.compare(&mut Bench::new(), &mut Random::new());
    print_tally(&rt, "quotients", &tallies.quotients)?;
    print_tally(&rt, "squares", &tallies.squares)?;
    print_tally(&rt, "means", &tallies.means)?;
    print_tally(&rt, "mean squares", &tallies.mean_squares)
}
