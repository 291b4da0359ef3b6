// The worked examples, run through the code.
use crate::quotient::quotient;
use crate::square::square;
use crate::standing::{StandingFlags, Trial};
use engines::digits::Digits;
use rounding::encoding::Encoding;
use rounding::rules::AnyRule;

// The quotient's encoding and flags, over `digits`.
fn divided(rule: AnyRule, dividend: u32, divisor: u32) -> (u32, u8) {
    let mut engine = Digits::new();
    let mut standing = StandingFlags::new();
    let answer = quotient(
        &mut engine,
        &rule,
        &mut standing,
        Encoding::from_bits(dividend),
        Encoding::from_bits(divisor),
    );
    (answer.encoding.to_bits(), standing.raised().number())
}

fn squared(rule: AnyRule, operand: u32) -> (u32, u8) {
    let mut standing = StandingFlags::new();
    let answer = square(&rule, &mut standing, Encoding::from_bits(operand));
    (answer.encoding.to_bits(), standing.raised().number())
}

#[test]
fn quotients(rt: HostRuntime) {
    assert_eq!(rt; divided(AnyRule::Even, 0xbf80_0000, 0), (0xff80_0000, 2));
    assert_eq!(rt; divided(AnyRule::Even, 1, 0x4000_0000), (0, 24));
    assert_eq!(rt; divided(AnyRule::Even, 3, 0x4000_0000), (2, 24));
    assert_eq!(rt;
        divided(AnyRule::Even, 0x00ff_ffff, 0x4000_0000),
        (0x0080_0000, 24)
    );
    assert_eq!(rt;
        divided(AnyRule::Zero, 0x7f7f_ffff, 0x3f00_0000),
        (0x7f7f_ffff, 20)
    );
    // Rounded to 24 bits first it would be a tie, and go to 2.
    assert_eq!(rt; divided(AnyRule::Even, 0x00f0_0001, 0x4b20_0001), (1, 24));
}

#[test]
fn squares(rt: HostRuntime) {
    assert_eq!(rt; squared(AnyRule::Up, 0x3f80_0001), (0x3f80_0003, 16));
    assert_eq!(rt; squared(AnyRule::Even, 0x5f7f_ffff), (0x7f7f_fffe, 16));
    assert_eq!(rt; squared(AnyRule::Even, 0x5f80_0000), (0x7f80_0000, 20));
}

#[test]
fn trial_hands_the_record_back(rt: HostRuntime) {
    let mut standing = StandingFlags::new();
    let third = Encoding::from_bits(0x3eaa_aaab);
    let _ = square(&AnyRule::Even, &mut standing, third);
    {
        let trial = Trial::begin(&mut standing);
        assert_eq!(rt; trial.standing.raised().number(), 0);
        let _ = square(
            &AnyRule::Even,
            trial.standing,
            Encoding::from_bits(0x5f80_0000),
        );
        assert_eq!(rt; trial.standing.raised().number(), 20);
    }
    assert_eq!(rt; standing.raised().number(), 16);
}
