// What kind of operand an encoding is.
ghost use Rattle.arithmetic.specs.Classes.{Classed};

use rounding::encoding::Encoding;

#[derive(Clone, Copy)]
pub enum Class {
    Zero,
    // finite and not zero
    Number,
    Infinity,
    Nan,
}

impl From<Encoding> for Class {
    ghost from_gives = { λ x class. Classed x.bits class };

    fn from(x: Encoding) -> Class {
        if x.is_zero() {
            Class::Zero
        } else if x.is_finite() {
            Class::Number
        } else if x.is_infinite() {
            Class::Infinity
        } else {
            Class::Nan
        }
    }
}
