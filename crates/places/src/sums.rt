// Exact sums of words at rising places, each by one pass over the words with a carry of one word.
ghost use Rattle.std.specs.Prelude.{◌≡◌, ℕ, ◌+◌, ◌-◌, ◌^◌, ◌<◌, ◌≤◌, length, nat_lt, slice_index, IfSome};
ghost use Rattle.std.specs.List.{slice_get};
ghost use borrow.Author.Differences.{down};
ghost use Rattle.places.specs.Digits.{bits_value};
ghost use Rattle.places.specs.Spread.{spread, ups, downs, raised, taken};

use crate::bits::{Bits, Signed};
use crate::carry::carried;

// A word as the pass takes it, when its turn comes.
trait Word {
    ghost worth: { Self → ℕ };

    // What is true of every word, by its type.
    ghost fair: { Self → Type 0 };

    fn taken(&self) -> u64
        ensures value { result ≡ worth self.now }
        ensures fair { fair self.now };
}

impl Word for u64 {
    ghost worth = { λ word. word };

    ghost fair = { λ word. word < 2 ^ 64 };

    fn taken(&self) -> u64 {
        *self
    }
}

// A signed word is raised by 2^63, so that none is below 0.
impl Word for i64 {
    ghost worth = { raised };

    ghost fair = { λ word. down word ≤ 2 ^ 63 };

    fn taken(&self) -> u64 {
        (*self as i128 + 0x8000_0000_0000_0000) as u64
    }
}

// The word of a field as the pass takes it, and 0 past the last one.
fn taken<W: Word>(words: &[W], field: usize) -> u64
    ensures value { result ≡ taken W.worth words.now field }
    ensures fair { IfSome (slice_get words.now field) W.fair }
{
    match words.get(field) {
        Some(word) => word.taken(),
        None => 0,
    }
}

// The first two words count ones, and each later one 2^STEP times as much as the one before. Past the last word 64 digits more take in all that is
// carried, and those above stay 0.
fn spread_sum<W: Word, const STEP: usize>(words: &[W]) -> Bits
    requires step { (0 < STEP) × (STEP ≤ 2) }
    requires few { length words.now ≤ 255 }
    ensures sum { bits_value result.digits ≡ spread STEP (taken W.worth words.now) 255 }
    ensures each { (k : ℕ) → k < 255 → (taken W.worth words.now k < 2 ^ 64) × IfSome (slice_get words.now k) W.fair }
{
    let mut digits = [false; 576];
    let mut carry = taken(words, 0);
    // By the field's number: of chunks that are lent and written, a proof learns nothing about the digits that they leave.
    for field in 0..254 + 64 / STEP {
        let next = carried::<STEP>(carry, taken(words, field + 1));
        digits[STEP * field..STEP * (field + 1)].copy_from_slice(&next.digits);
        carry = next.carry;
    }
    Bits { digits }
}

// The words of squares: the first two count ones, and each later one four times as much as the one before.
pub fn sum_of_squares(words: &[u64; 255]) -> Bits
    ensures { bits_value result.digits ≡ spread 2 (λ k. slice_index words.now k) 255 }
{
    spread_sum::<u64, 2>(words)
}

// What a number lacks of 2^317: its digits up to the lowest that is set stay, and those above turn over.
fn lacking(bits: Bits) -> Bits
    requires { bits_value bits.digits < 2 ^ 317 }
    ensures { bits_value result.digits + bits_value bits.digits ≡ 2 ^ 317 }
{
    let mut digits = bits.digits;
    let mut seen = false;
    for digit in &mut digits[..317] {
        let was = *digit;
        *digit = was != seen;
        seen |= was;
    }
    digits[317] = !seen;
    Bits { digits }
}

// The words of signed numbers: the first two count ones, and each later one twice as much as the one before.
pub fn signed_sum(words: &[i64; 255]) -> Signed
    ensures sign { result.negative ≡ nat_lt (spread 1 (ups words.now) 255) (spread 1 (downs words.now) 255) }
    ensures size { bits_value result.size.digits ≡ (spread 1 (ups words.now) 255 - spread 1 (downs words.now) 255) + (spread 1 (downs words.now) 255 - spread 1 (ups words.now) 255) }
{
    // With each word the sum is raised, by 2^317.
    let mut size = spread_sum::<i64, 1>(words);
    let negative = !size.digits[317];
    if negative {
        size = lacking(size);
    } else {
        size.digits[317] = false;
    }
    Signed { negative, size }
}
