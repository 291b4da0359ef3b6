// The two lists of calls: the same replies in another order, with repeats, lapses and refusals of every kind but a full window.
use meter::address::Address;
use meter::call::{Attempt, Call, NamedPoll};
use rounding::encoding::Encoding;

pub const LENGTH: usize = 24;

const ONE: u32 = 0x3f80_0000;

const TWO: u32 = 0x4000_0000;

const THREE: u32 = 0x4040_0000;

const INFINITE: u32 = 0x7f80_0000;

const NAN: u32 = 0x7fc0_0000;

fn poll(address: Address, attempt: Attempt) -> NamedPoll {
    NamedPoll { address, attempt }
}

fn reply(address: Address, attempt: Attempt, bits: u32) -> Call {
    Call::Reply(poll(address, attempt), Encoding::from_bits(bits))
}

fn quotient(dividend: u32, divisor: u32) -> Call {
    Call::Quotient {
        dividend: Encoding::from_bits(dividend),
        divisor: Encoding::from_bits(divisor),
    }
}

fn square(operand: u32) -> Call {
    Call::Square {
        operand: Encoding::from_bits(operand),
    }
}

// Replies 1, 2 and 1.
pub fn first_list(own: Address, other: Address) -> [Call; LENGTH] {
    [
        Call::Mean,
        quotient(ONE, THREE),
        Call::Repeat(poll(own, Attempt::First)),
        Call::Poll,
        Call::Poll,
        Call::Repeat(poll(own, Attempt::First)),
        Call::Repeat(poll(own, Attempt::Second)),
        Call::Repeat(poll(own, Attempt::Third)),
        reply(own, Attempt::Third, NAN),
        reply(other, Attempt::First, ONE),
        reply(own, Attempt::Third, ONE),
        Call::Poll,
        Call::Lapse(poll(own, Attempt::First)),
        Call::Lapse(poll(own, Attempt::First)),
        Call::Poll,
        reply(own, Attempt::First, TWO),
        Call::Poll,
        reply(own, Attempt::First, ONE),
        Call::Mean,
        Call::MeanSquare,
        square(0x3f80_0001),
        Call::Retire,
        Call::Retract,
        Call::Mean,
    ]
}

// Replies 2, 1 and 1.
pub fn second_list(own: Address, other: Address) -> [Call; LENGTH] {
    [
        Call::Retract,
        Call::Poll,
        reply(own, Attempt::First, TWO),
        Call::Poll,
        Call::Repeat(poll(own, Attempt::First)),
        Call::Lapse(poll(other, Attempt::First)),
        reply(own, Attempt::Second, ONE),
        square(0x3f80_0001),
        Call::Poll,
        reply(own, Attempt::First, INFINITE),
        reply(own, Attempt::First, ONE),
        Call::Mean,
        Call::MeanSquare,
        quotient(ONE, THREE),
        // A tie among subnormals, a number over zero, and an overflow.
        quotient(0x0000_0003, TWO),
        quotient(0xbf80_0000, 0),
        square(0x5f80_0000),
        Call::Poll,
        Call::Lapse(poll(own, Attempt::First)),
        reply(own, Attempt::First, ONE),
        Call::Retire,
        Call::Mean,
        Call::Retract,
        Call::MeanSquare,
    ]
}
