// The product beside the reference: each question is put to both, over every engine and under every rule.
use crate::questions::{Expected, Question, by_machine, due};
use crate::reference::{INEXACT, Outcome};
use crate::replies::Replies;
use crate::tally::{Tally, more};
use arithmetic::quotient::quotient;
use arithmetic::square::square;
use arithmetic::standing::StandingFlags;
use engine_choice::{AnyEngine, EngineName};
use engines::Engine;
use means::average::average;
use rounding::encoding::Encoding;
use rounding::round::Answer;
use rounding::rules::AnyRule;
use window::average::Average;
use window::reading::Reading;
use window::window::Window;

const RULES: [AnyRule; 5] = [
    AnyRule::Even,
    AnyRule::Away,
    AnyRule::Zero,
    AnyRule::Up,
    AnyRule::Down,
];

// The three engines, and the standing replies twice: in the product's window and in a plain list.
#[derive(Drop)]
pub struct Bench {
    engines: [AnyEngine; 3],
    window: Window,
    replies: Replies,
}

impl From<Answer> for Outcome {
    fn from(answer: Answer) -> Outcome {
        Outcome {
            bits: answer.encoding.to_bits(),
            flags: answer.flags.number(),
        }
    }
}

fn quotient_by(engine: &mut AnyEngine, rule: AnyRule, dividend: u32, divisor: u32) -> Outcome {
    let mut standing = StandingFlags::new();
    let dividend = Encoding::from_bits(dividend);
    let divisor = Encoding::from_bits(divisor);
    quotient(engine, &rule, &mut standing, dividend, divisor).into()
}

fn square_by(rule: AnyRule, operand: u32) -> Outcome {
    let mut standing = StandingFlags::new();
    square(&rule, &mut standing, Encoding::from_bits(operand)).into()
}

fn average_by(
    engine: &mut AnyEngine,
    rule: AnyRule,
    window: &Window,
    which: Average,
) -> Option<Outcome> {
    let mut standing = StandingFlags::new();
    let answer = average(window, which, engine, &rule, &mut standing);
    answer.ok().map(Outcome::from)
}

// The product's answer; none where a mean is refused.
fn answered(
    engine: &mut AnyEngine,
    rule: AnyRule,
    window: &Window,
    question: Question,
) -> Option<Outcome> {
    match question {
        Question::Quotient(dividend, divisor) => Some(quotient_by(engine, rule, dividend, divisor)),
        Question::Square(operand) => Some(square_by(rule, operand)),
        Question::Average(which) => average_by(engine, rule, window, which),
    }
}

// Whether the 64th part of an estimate for the engine's last pair is above the quotient.
fn overshoots(engine: &mut AnyEngine) -> bool {
    let log = engine.log();
    let whole = engine.estimate(log.divisor, log.dividend) / 64;
    whole as u64 * log.divisor as u64 > log.dividend
}

// Whether the engine's last division left nothing, and its quotient of 25 bits fits 24.
fn divided_evenly(engine: &AnyEngine) -> bool {
    let log = engine.log();
    log.divisor > 0 && log.dividend % (2 * log.divisor as u64) == 0
}

impl Bench {
    pub fn new() -> Bench {
        Bench {
            engines: [EngineName::Digits, EngineName::Radix4, EngineName::Cubic].map(
                AnyEngine::new,
            ),
            window: Window::new(),
            replies: Replies::new(),
        }
    }

    // No reply stands any more.
    pub fn clear(&mut self) {
        self.window = Window::new();
        self.replies = Replies::new();
    }

    pub fn take_in(&mut self, bits: u32) {
        if let Some(reading) = Reading::new(Encoding::from_bits(bits)) {
            let _ = self.window.take_in(reading);
            self.replies.push(bits);
        }
    }

    pub fn retire(&mut self) {
        let _ = self.window.retire();
        self.replies.drop_first();
    }

    pub fn retract(&mut self) {
        let _ = self.window.retract();
        self.replies.drop_last();
    }

    // How many answers under a rule are not the wanted one.
    fn wrong(&mut self, rule: AnyRule, question: Question, wanted: Outcome) -> u32 {
        let mut count = 0;
        for engine in self.engines.iter_mut() {
            let found = answered(engine, rule, &self.window, question);
            count = more(count, found != Some(wanted));
        }
        count
    }

    pub fn compare(&mut self, tally: &mut Tally, question: Question) {
        let expected = due(question, &self.replies);
        let estimates = self.engines[0].log().estimates;
        for rule in RULES {
            let wrong = self.wrong(rule, question, expected.under(rule));
            tally.differences = tally.differences.saturating_add(wrong);
        }
        let even = expected.under(AnyRule::Even);
        tally.count(&expected, even);
        if let Some(machine) = by_machine(question) {
            tally.machine = more(tally.machine, machine != even.bits);
        }
        if self.engines[0].log().estimates != estimates {
            self.count_near_misses(tally, even);
        }
    }

    // From what the engines were just asked.
    fn count_near_misses(&mut self, tally: &mut Tally, even: Outcome) {
        for engine in self.engines.iter_mut() {
            tally.overshot = more(tally.overshot, overshoots(engine));
        }
        let evenly = divided_evenly(&self.engines[0]);
        tally.cut = more(tally.cut, even.flags == INEXACT && evenly);
    }
}
