// The five rounding directions of IEEE 754. The two directed ones differ in a constant and are one type; the other three in what they answer.
ghost use Rattle.std.specs.Prelude.{◌≡◌, if◌then◌else◌};
ghost use Rattle.rounding.specs.Rules.{even_rule, away_rule, zero_rule, up_rule, down_rule, rule_of};
ghost use Rattle.std.proofs.Common.{rules};

use crate::rest::Rest;
use crate::rule::Rule;

// To nearest, a tie to the even significand.
#[derive(Clone, Copy)]
pub struct Even;

impl Rule for Even {
    ghost meaning = { λ _. even_rule };

    ghost lawful = { Prim.search rules };

    fn grows(&self, _negative: bool, odd: bool, rest: Rest) -> bool {
        match rest {
            Rest::Nothing | Rest::UnderHalf => false,
            Rest::Half => odd,
            Rest::OverHalf => true,
        }
    }

    fn overflows_to_infinity(&self, _negative: bool) -> bool {
        true
    }
}

// To nearest, a tie away from zero.
#[derive(Clone, Copy)]
pub struct Away;

impl Rule for Away {
    ghost meaning = { λ _. away_rule };

    ghost lawful = { Prim.search rules };

    fn grows(&self, _negative: bool, _odd: bool, rest: Rest) -> bool {
        match rest {
            Rest::Nothing | Rest::UnderHalf => false,
            Rest::Half | Rest::OverHalf => true,
        }
    }

    fn overflows_to_infinity(&self, _negative: bool) -> bool {
        true
    }
}

// Toward zero.
#[derive(Clone, Copy)]
pub struct Zero;

impl Rule for Zero {
    ghost meaning = { λ _. zero_rule };

    ghost lawful = { Prim.search rules };

    fn grows(&self, _negative: bool, _odd: bool, _rest: Rest) -> bool {
        false
    }

    fn overflows_to_infinity(&self, _negative: bool) -> bool {
        false
    }
}

// Toward the infinity of the sign.
#[derive(Clone, Copy)]
pub struct Directed<const NEGATIVE: bool>;

// Toward positive infinity.
pub type Up = Directed<false>;

// Toward negative infinity.
pub type Down = Directed<true>;

impl<const NEGATIVE: bool> Rule for Directed<NEGATIVE> {
    ghost meaning = { λ _. (if NEGATIVE then down_rule else up_rule) };

    ghost lawful = { Prim.search rules };

    fn grows(&self, negative: bool, _odd: bool, rest: Rest) -> bool {
        match rest {
            Rest::Nothing => false,
            Rest::UnderHalf | Rest::Half | Rest::OverHalf => negative == NEGATIVE,
        }
    }

    fn overflows_to_infinity(&self, negative: bool) -> bool {
        negative == NEGATIVE
    }
}

// One of the five, picked by name.
#[derive(Clone, Copy)]
pub enum AnyRule {
    Even,
    Away,
    Zero,
    Up,
    Down,
}

impl Rule for AnyRule {
    ghost meaning = { rule_of };

    ghost lawful = { Prim.search rules };

    fn grows(&self, negative: bool, odd: bool, rest: Rest) -> bool {
        match self {
            AnyRule::Even => Even.grows(negative, odd, rest),
            AnyRule::Away => Away.grows(negative, odd, rest),
            AnyRule::Zero => Zero.grows(negative, odd, rest),
            AnyRule::Up => (Up {}).grows(negative, odd, rest),
            AnyRule::Down => (Down {}).grows(negative, odd, rest),
        }
    }

    fn overflows_to_infinity(&self, negative: bool) -> bool {
        match self {
            AnyRule::Even => Even.overflows_to_infinity(negative),
            AnyRule::Away => Away.overflows_to_infinity(negative),
            AnyRule::Zero => Zero.overflows_to_infinity(negative),
            AnyRule::Up => (Up {}).overflows_to_infinity(negative),
            AnyRule::Down => (Down {}).overflows_to_infinity(negative),
        }
    }
}
