// Reading the line that sets the meter up.
ghost use Rattle.forms.specs.Setups.{fitting, engine, rule, setup, Addressed};
ghost use Rattle.lex.specs.Reads.{Reads};

use crate::Setup;
use engine_choice::EngineName;
use lex::{decimal, inside, is, split};
use rounding::rules::AnyRule;

// Two tables, of engines and of rules: nothing but their words and names could be shared.
fn read_engine(word: &[u8]) -> Option<EngineName>
    ensures { Reads engine (λ _. Unit {0}) word.now result }
{
    match word {
        _ if is(word, b"digits") => Some(EngineName::Digits),
        _ if is(word, b"radix4") => Some(EngineName::Radix4),
        _ if is(word, b"cubic") => Some(EngineName::Cubic),
        _ => None,
    }
}

fn read_rule(word: &[u8]) -> Option<AnyRule>
    ensures { Reads rule (λ _. Unit {0}) word.now result }
{
    match word {
        _ if is(word, b"even") => Some(AnyRule::Even),
        _ if is(word, b"away") => Some(AnyRule::Away),
        _ if is(word, b"zero") => Some(AnyRule::Zero),
        _ if is(word, b"up") => Some(AnyRule::Up),
        _ if is(word, b"down") => Some(AnyRule::Down),
        _ => None,
    }
}

// ENGINE RULE
fn read_fitting(text: &[u8]) -> Option<(EngineName, AnyRule)>
    ensures { Reads fitting (λ _. Unit {0}) text.now result }
{
    let (engine, rule) = split(text)?;
    Some((read_engine(engine)?, read_rule(rule)?))
}

pub fn read_setup(line: &[u8]) -> Option<Setup>
    ensures { Reads setup Addressed line.now result }
{
    let (address, names) = split(inside(line, b"(meter ")?)?;
    let address = decimal(address)?;
    let (engine, rule) = read_fitting(names)?;
    Some(Setup {
        address,
        engine,
        rule,
    })
}
