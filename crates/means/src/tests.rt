// The edges of a window, and means across the whole range of exponents.
use crate::average::average;
use arithmetic::standing::StandingFlags;
use engines::digits::Digits;
use rounding::encoding::Encoding;
use rounding::rules::Even;
use window::average::Average;
use window::reading::Reading;
use window::window::Window;

// Takes the encoding in; false where it is refused.
fn take(window: &mut Window, bits: u32) -> bool {
    match Reading::new(Encoding::from_bits(bits)) {
        Some(reading) => window.take_in(reading).is_ok(),
        None => false,
    }
}

// The average's encoding and flags, over `digits` and ties to even; 0 where none stands.
fn average_of(window: &Window, which: Average) -> (u32, u8) {
    let mut flags = StandingFlags::new();
    match average(window, which, &mut Digits::new(), &Even, &mut flags) {
        Ok(answer) => (answer.encoding.to_bits(), answer.flags.number()),
        Err(_) => (0, 0),
    }
}

// 288 replies stand and the next is refused; drained from both ends, and filled again, the sums are those of what stands.
#[test]
fn fills_drains_and_refills(rt: HostRuntime) {
    let mut window = Window::new();
    for _i in 0u32..288 {
        assert!(rt; take(&mut window, 0x3f80_0000));
    }
    assert!(rt; !take(&mut window, 0x3f80_0000));
    assert_eq!(rt; average_of(&window, Average::Mean), (0x3f80_0000, 0));
    for _i in 0u32..144 {
        assert!(rt; window.retire().is_ok());
        assert!(rt; window.retract().is_ok());
    }
    assert!(rt; window.retire().is_err());
    for _i in 0u32..288 {
        assert!(rt; take(&mut window, 0xc000_0000));
    }
    assert!(rt; !take(&mut window, 0xc000_0000));
    assert_eq!(rt; average_of(&window, Average::Mean), (0xc000_0000, 0));
}

// The greatest number and its opposite cancel, exactly, and what a subnormal adds is kept.
#[test]
fn cancels_across_all_exponents(rt: HostRuntime) {
    let mut window = Window::new();
    assert!(rt; take(&mut window, 0x7f7f_ffff));
    assert!(rt; take(&mut window, 0xff7f_ffff));
    assert_eq!(rt; average_of(&window, Average::Mean), (0, 0));
    assert!(rt; take(&mut window, 0x0000_0003));
    assert_eq!(rt; average_of(&window, Average::Mean), (0x0000_0001, 0));
    assert_eq!(rt; average_of(&window, Average::MeanSquare), (0x7f80_0000, 20));
}

// The worked example of a mean.
#[test]
fn mean_of_three(rt: HostRuntime) {
    let mut window = Window::new();
    assert!(rt; take(&mut window, 0x3f80_0000));
    assert!(rt; take(&mut window, 0x3f80_0000));
    assert!(rt; take(&mut window, 0x4000_0000));
    assert_eq!(rt; average_of(&window, Average::Mean), (0x3faa_aaab, 16));
}
