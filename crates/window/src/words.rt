// The sums of the standing replies by exponent field: one machine word for the signed significands, one for their squares.
ghost use Rattle.std.specs.Prelude.{◌≡◌, ◌+◌, ◌-◌, ◌≤◌, [], nat_lt, slice_index};
ghost use Rattle.places.specs.Digits.{bits_value};
ghost use Rattle.places.specs.Spread.{spread, ups, downs};
ghost use Rattle.window.specs.Replies.{field_of, square_of, signed_of, Finite};
ghost use Rattle.window.specs.Words.{Joins, Tells, Roomy};

use places::bits::{Bits, Signed};
use places::sums::{signed_sum, sum_of_squares};
use rounding::encoding::Encoding;

// Two plain arrays side by side: a rule of the project, a word of each kind for each exponent field.
#[derive(Clone, Copy)]
pub struct Words {
    sums: [i64; 255],
    squares: [u64; 255],
}

// The significand with the reply's sign.
fn signed(reply: Encoding) -> i64
    ensures { result ≡ signed_of reply }
{
    let size = reply.significand() as i64;
    if reply.is_negative() { -size } else { size }
}

fn square(reply: Encoding) -> u64
    ensures { result ≡ square_of reply }
{
    let size = reply.significand() as u64;
    size * size
}

impl Words {
    pub fn new() -> Words
        ensures { Tells result [] }
    {
        let sums = [0; 255];
        let squares = [0; 255];
        Words { sums, squares }
    }

    // One reply more.
    pub fn with(self, reply: Encoding) -> Words
        requires finite { Finite reply }
        requires roomy { Roomy self }
        ensures { Joins self reply result }
    {
        let field = reply.field() as usize;
        let mut next = self;
        next.sums[field] += signed(reply);
        next.squares[field] += square(reply);
        next
    }

    // One reply less. Beside `with`, and not one function that is given a sign: what the two require differs.
    pub fn without(self, reply: Encoding) -> Words
        requires finite { Finite reply }
        requires roomy { Roomy self }
        requires held { square_of reply ≤ slice_index self.squares (field_of reply) }
        ensures { Joins result reply self }
    {
        let field = reply.field() as usize;
        let mut next = self;
        next.sums[field] -= signed(reply);
        next.squares[field] -= square(reply);
        next
    }

    // The sum of all replies, in units of the smallest subnormal.
    pub fn sum(&self) -> Signed
        ensures sign { result.negative ≡ nat_lt (spread 1 (ups self.now.sums) 255) (spread 1 (downs self.now.sums) 255) }
        ensures size { bits_value result.size.digits ≡ (spread 1 (ups self.now.sums) 255 - spread 1 (downs self.now.sums) 255) + (spread 1 (downs self.now.sums) 255 - spread 1 (ups self.now.sums) 255) }
    {
        signed_sum(&self.sums)
    }

    // The sum of all their squares, in units of the smallest subnormal's square.
    pub fn sum_of_squares(&self) -> Bits
        ensures { bits_value result.digits ≡ spread 2 (λ k. slice_index self.now.squares k) 255 }
    {
        sum_of_squares(&self.squares)
    }
}
