// Engines and rules by number, as C names them: functions and no TryFrom, since these types are other crates' and the numbers C's alone;
// two tables, with nothing but their names to share.
ghost use Rattle.std.specs.Prelude.{◌≡◌, Some, None, MatchResult};
ghost use Rattle.c_interface.specs.Numbers.{engine_numbered, rule_numbered};

use crate::refusal::Unknown;
use engine_choice::EngineName;
use rounding::rules::AnyRule;

pub fn engine_numbered(number: u8) -> Result<EngineName, Unknown>
    ensures { MatchResult result (λ name. engine_numbered number ≡ Some name) (λ unknown. (engine_numbered number ≡ None) × (unknown ≡ Unknown.Engine)) }
{
    match number {
        0 => Ok(EngineName::Digits),
        1 => Ok(EngineName::Radix4),
        2 => Ok(EngineName::Cubic),
        _ => Err(Unknown::Engine),
    }
}

pub fn rule_numbered(number: u8) -> Result<AnyRule, Unknown>
    ensures { MatchResult result (λ rule. rule_numbered number ≡ Some rule) (λ unknown. (rule_numbered number ≡ None) × (unknown ≡ Unknown.Rule)) }
{
    match number {
        0 => Ok(AnyRule::Even),
        1 => Ok(AnyRule::Away),
        2 => Ok(AnyRule::Zero),
        3 => Ok(AnyRule::Up),
        4 => Ok(AnyRule::Down),
        _ => Err(Unknown::Rule),
    }
}
