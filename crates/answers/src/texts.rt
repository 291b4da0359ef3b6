// The text of an answer as it grows. It is no `Display` for `write!`, whose promise leaves open that it fails.
ghost use Rattle.std.specs.Prelude.{◌≡◌, ◌+◌, ◌<◌, ◌≤◌, [], ◌++◌, length, decimal as written};
ghost use Rattle.lex.specs.Numbers.{digit, digits};

use arrayvec::ArrayVec;
use itoa::Buffer;

#[derive(Drop)]
pub struct Text {
    pub bytes: ArrayVec<u8, 32>,
}

impl Text {
    pub fn new() -> Text
        ensures { result.bytes.items ≡ [] }
    {
        Text {
            bytes: ArrayVec::new(),
        }
    }

    // What is lent grows in its place: a text that is passed on by value is copied at each digit.
    pub fn put(&mut self, bytes: &[u8])
        requires { length self.old.bytes.items + length bytes.now ≤ 32 }
        ensures { self.new.bytes.items ≡ self.old.bytes.items ++ bytes.now }
    {
        self.bytes.try_extend_from_slice(bytes).unwrap();
    }

    // `n` without leading zeros.
    pub fn decimal(&mut self, n: u16)
        requires { length self.old.bytes.items + 5 ≤ 32 }
        ensures short { length self.new.bytes.items ≤ length self.old.bytes.items + 5 }
        ensures after { self.new.bytes.items ≡ self.old.bytes.items ++ written n }
    {
        self.put(Buffer::new().format(n).as_bytes());
    }

    // The last `count` hexadecimal digits of `n`. By hand, since std writes them by `write!` alone.
    pub fn hexadecimal(&mut self, count: usize, n: u32)
        requires { length self.old.bytes.items + count ≤ 32 }
        ensures end { length self.new.bytes.items ≡ length self.old.bytes.items + count }
        ensures after { self.new.bytes.items ≡ self.old.bytes.items ++ digits 16 count n }
    {
        if count == 0 {
            return;
        }
        self.hexadecimal(count - 1, n / 16);
        self.bytes.push(glyph((n % 16) as u8));
    }
}

// The byte of a digit, the letters capital.
fn glyph(d: u8) -> u8
    requires { d < 16 }
    ensures { result ≡ digit d }
{
    if d < 10 { b'0' + d } else { b'A' - 10 + d }
}
