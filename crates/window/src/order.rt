// The order of finite encodings by value, in which both zeros are equal: a derived order would be that of the bits.
ghost use Rattle.std.specs.Prelude.{◌≡◌, int_lt};
ghost use Rattle.window.specs.Replies.{worth_of, rank};

use rounding::encoding::{Encoding, SIGN};

// A number in the order of the values: both zeros have 2^31.
fn rank(x: Encoding) -> u32
    ensures { result ≡ rank x }
{
    if x.is_negative() {
        SIGN - x.size()
    } else {
        SIGN + x.size()
    }
}

pub fn exceeds(x: Encoding, y: Encoding) -> bool
    ensures { result ≡ int_lt (worth_of y) (worth_of x) }
{
    rank(y) < rank(x)
}
