// Two meters with different engines are given two lists of calls by one replay. What each call told is printed, with how many
// replies stood then and how many estimates the engine had given.
#![tactic(auto)]

mod lists;
mod text;

use crate::lists::{LENGTH, first_list, second_list};
use crate::text::{CallText, ToldText};
use cubic::Cubic;
use engines::digits::Digits;
use engines::{Engine, Log};
use meter::address::Address;
use meter::call::Call;
use replay::replaying::{Fitting, replay};
use replay::step::{ROOM, Step, Told};
use rounding::encoding::Encoding;
use rounding::rules::Even;
use std::io;

// Room for a call, before anything is told.
fn blank() -> Step {
    Step {
        told: Ok(Told::Lapsed),
        log: Log::new(),
        count: 0,
        standing: [Encoding::from_bits(0); ROOM],
    }
}

// What a meter was given and told, and what its engine has done.
fn print_meter(
    rt: &HostRuntime,
    address: Address,
    engine: &str,
    calls: &[Call],
    steps: &[Step],
    log: Log,
) -> io::Result<()> {
    println!(rt; "meter {}, {engine}, even:", address.number())?;
    for (call, step) in calls.iter().zip(steps) {
        let call = CallText(*call);
        let told = ToldText(step.told);
        println!(rt;
            "{call}: {told}; standing {}, estimates {}",
            step.count, step.log.estimates
        )?;
    }
    println!(rt;
        "estimates {}, the last one of {} / {}",
        log.estimates, log.dividend, log.divisor
    )
}

// Both meters round to even; the engines differ, and so does the order of the replies.
fn main(rt: HostRuntime) -> io::Result<()> {
    let here = Address::try_from(17u16).unwrap();
    let there = Address::try_from(34u16).unwrap();
    let first_calls = first_list(here, there);
    let second_calls = second_list(there, here);
    let mut first_steps = [blank(); LENGTH];
    let mut second_steps = [blank(); LENGTH];
    let first = Fitting {
        address: here,
        engine: Digits::new(),
        rule: Even,
    };
    let second = Fitting {
        address: there,
        engine: Cubic::new(),
        rule: Even,
    };
    let (digits, cubic) = replay(
        first,
        &first_calls,
        &mut first_steps,
        second,
        &second_calls,
        &mut second_steps,
    );
    print_meter(
        &rt,
        here,
        "digits",
        &first_calls,
        &first_steps,
        digits.log(),
    )?;
    print_meter(
        &rt,
        there,
        "cubic",
        &second_calls,
        &second_steps,
        cubic.log(),
    )
}
