// From what an average asks to its answer: one estimate, or none where the sum is zero.
ghost use Rattle.std.specs.Prelude.{◌≡◌, ℕ, ◌*◌, ◌^◌, ◌<◌, Bool, false, not, ◌||◌, ◌==◌};
ghost use Rattle.engines.specs.Meaning.{counted};
ghost use Rattle.rounding.specs.Format.{binary32};
ghost use Rattle.rounding.specs.Rounding.{rounded};
ghost use Rattle.arithmetic.specs.Defined.{Gives};
ghost use Rattle.places.specs.Asking.{Scales};
ghost use Rattle.window.specs.Due.{Due};
ghost use Rattle.means.specs.Defined.{sum_log};

use engines::{Engine, whole_quotient};
use rounding::encoding::Encoding;
use rounding::flags::Flags;
use rounding::round::{Answer, round};
use rounding::rule::Rule;
use rounding::truncated::Truncated;
use window::ask::Ask;

// Whether anything lies below the whole quotient.
fn cut_off(quotient: u32, ask: Ask) -> bool
    ensures { result ≡ (not ((quotient * ask.question.divisor) == ask.question.dividend) || ask.more) }
{
    quotient as u64 * ask.question.divisor() as u64 != ask.question.dividend() || ask.more
}

// The whole quotient stands for s / (n * 2^u); it may be exact and the value not, where digits of s were cut off.
fn divide_sum<E: Engine, R: Rule>(engine: &mut E, rule: &R, ask: Ask) -> Answer
    ensures answer { (s n u : ℕ) → 0 < n → Scales 256 (s * 2 ^ 149) (n * 2 ^ u) ask.question.divisor ask.question.dividend ask.scale ask.more → Gives result (rounded binary32 (R.meaning rule.now) (record { negative = ask.negative; num = s; den = n * 2 ^ u })) }
    ensures after { E.logged engine.new ≡ counted (E.logged engine.old) ask.question.divisor ask.question.dividend }
{
    let quotient = whole_quotient(engine, ask.question.divisor(), ask.question.dividend());
    let value = Truncated::new(quotient as u64, ask.scale, cut_off(quotient, ask)).unwrap();
    round(rule, ask.negative, value)
}

pub fn answer_ask<E: Engine, R: Rule>(engine: &mut E, rule: &R, ask: Option<Ask>) -> Answer
    ensures answer { (sign : Bool) (s n u : ℕ) → 0 < n → (s ≡ 0 → sign ≡ false) → Due sign s n u ask → Gives result (rounded binary32 (R.meaning rule.now) (record { negative = sign; num = s; den = n * 2 ^ u })) }
    ensures after { (sign : Bool) (s n u : ℕ) → 0 < n → n < 16777216 → Due sign s n u ask → E.logged engine.new ≡ sum_log (E.logged engine.old) s n }
{
    match ask {
        Some(ask) => divide_sum(engine, rule, ask),
        None => Answer {
            encoding: Encoding::zero(false),
            flags: Flags::none(),
        },
    }
}
