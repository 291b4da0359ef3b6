// An engine's meaning: how many estimates in range it gave, and the pair of the last one.
ghost use Rattle.std.specs.Prelude.{◌≡◌, true, false, MatchOption};
ghost use Rattle.engines.specs.Band.{in_range};
ghost use Rattle.engines.specs.Meaning.{none, noted};

use crate::question::Question;

// What an engine has done since it was made. Estimates out of range leave no trace in it.
#[derive(Clone, Copy)]
pub struct Log {
    pub estimates: u32,
    pub divisor: u32,
    pub dividend: u64,
}

impl Log {
    // No derived Default: that it is `none` is promised here, in the word that every engine's contract uses.
    pub fn new() -> Log
        ensures { result ≡ none }
    {
        Log {
            estimates: 0,
            divisor: 0,
            dividend: 0,
        }
    }

    // Takes an estimate down and gives what was asked, or None where it is out of range. The count stops at its largest value.
    pub fn note(&mut self, divisor: u32, dividend: u64) -> Option<Question>
        ensures asked { MatchOption result (in_range divisor dividend ≡ false) (λ q. (in_range divisor dividend ≡ true) × (q.divisor ≡ divisor) × (q.dividend ≡ dividend)) }
        ensures after { self.new ≡ noted self.old divisor dividend }
    {
        let question = Question::new(divisor, dividend)?;
        self.estimates = self.estimates.saturating_add(1);
        self.divisor = divisor;
        self.dividend = dividend;
        Some(question)
    }
}
