// A number by its binary digits.

// The lowest digit first.
#[derive(Clone, Copy)]
pub struct Bits {
    pub digits: [bool; 576],
}

// A number with a sign; 0 is not negative.
#[derive(Clone, Copy)]
pub struct Signed {
    pub negative: bool,
    pub size: Bits,
}
