// A rule chooses between the two binary32 values that enclose an exact value.
ghost use Rattle.std.specs.Prelude.{◌≡◌};
ghost use Rattle.rounding.specs.Rules.{Meaning, Lawful};

use crate::rest::Rest;

pub trait Rule {
    // The rule's two answers; rules of one meaning are one rule.
    ghost meaning: { Self → Meaning };

    // Whether a significand grows by one.
    fn grows(&self, negative: bool, odd: bool, rest: Rest) -> bool
        ensures { result ≡ (meaning self.now).grow negative odd rest };

    // Whether an overflow goes to infinity, and not to the greatest finite number.
    fn overflows_to_infinity(&self, negative: bool) -> bool
        ensures { result ≡ (meaning self.now).infinite negative };

    // It moves no exact value, and a larger rest never turns its yes into a no.
    ghost lawful: { (x : Self) → Lawful (meaning x) };
}
