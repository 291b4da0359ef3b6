// Numbers: eight hexadecimal digits, and decimals of one to three digits with no leading zero.
ghost use Rattle.std.specs.Prelude.{◌≡◌, ◌^◌, ◌<◌, ◌≤◌, length, decimal as written, Decides, MatchOption, ◌≢◌};
ghost use Rattle.lex.specs.Numbers.{Unpadded, digit, digits, hex};
ghost use Rattle.lex.specs.Reads.{Reads};

// The digit below `base` that `byte` writes; a small letter writes none.
fn digit_of(byte: u8, base: u32) -> Option<u32>
    requires { (2 ≤ base) × (base ≤ 16) }
    ensures { MatchOption result ((d : _) → d < base → byte ≢ digit d) (λ d. (d < base) × (byte ≡ digit d)) }
{
    if byte.is_ascii_lowercase() {
        return None;
    }
    char::from(byte).to_digit(base)
}

// The number that `word` writes in `base`, where each of its bytes is a digit.
fn number(word: &[u8], base: u32) -> Option<u32>
    requires few { length word.now ≤ 8 }
    requires base { (2 ≤ base) × (base ≤ 16) }
    ensures { Reads (digits base (length word.now)) (λ n. n < base ^ length word.now) word.now result }
{
    let mut value = 0;
    for byte in word {
        value = value * base + digit_of(*byte, base)?;
    }
    Some(value)
}

// An encoding: exactly eight digits, capital letters only.
pub fn hexadecimal(word: &[u8]) -> Option<u32>
    ensures { Reads hex (λ n. n < 2 ^ 32) word.now result }
{
    if word.len() != 8 {
        return None;
    }
    number(word, 16)
}

// Whether a number could be written so: it has digits, and begins with `0` only where it is `0`.
fn unpadded(word: &[u8]) -> bool
    ensures { Decides result (Unpadded word.now) }
{
    match word {
        [] => false,
        [_] => true,
        [first, ..] => *first != b'0',
    }
}

// A number below a thousand, without leading zeros.
pub fn decimal(word: &[u8]) -> Option<u16>
    ensures { Reads written (λ n. n < 1000) word.now result }
{
    if word.len() > 3 || !unpadded(word) {
        return None;
    }
    Some(number(word, 10)? as u16)
}
