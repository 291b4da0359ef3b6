// One word joins a carry.
ghost use Rattle.std.specs.Prelude.{◌≡◌, ◌+◌, ◌*◌, ◌^◌, ◌<◌};
ghost use Rattle.places.specs.Digits.{bits_value};

#[derive(Clone, Copy)]
pub struct Step<const N: usize> {
    pub digits: [bool; N],
    pub carry: u64,
}

// The N lowest digits of the sum go out, and the rest is carried on.
pub fn carried<const N: usize>(carry: u64, word: u64) -> Step<N>
    requires { 0 < N }
    ensures { bits_value result.digits + result.carry * 2 ^ N ≡ carry + word }
{
    let mut rest = carry as u128 + word as u128;
    let mut digits = [false; N];
    for digit in &mut digits {
        *digit = rest % 2 == 1;
        rest /= 2;
    }
    Step {
        digits,
        carry: rest as u64,
    }
}
