// The shapes of the answers.
ghost use Rattle.std.specs.Prelude.{◌≡◌, ◌≤◌, length};
ghost use Rattle.answers.specs.Answers.{counted as Counted, numbered as Numbered, peaked as Peaked};

use crate::texts::Text;

// A name and a number: (ok 17)
pub fn counted(head: &[u8], n: u16) -> Text
    requires { length head.now ≤ 8 }
    ensures { result.bytes.items ≡ Counted head.now n }
{
    let mut text = Text::new();
    text.put(head);
    text.decimal(n);
    text.put(b")");
    text
}

// An encoding and flags: (num 3EAAAAAB 16)
pub fn numbered(encoding: u32, flags: u8) -> Text
    ensures { result.bytes.items ≡ Numbered encoding flags }
{
    let mut text = Text::new();
    text.put(b"(num ");
    text.hexadecimal(8, encoding);
    text.put(b" ");
    text.decimal(flags.into());
    text.put(b")");
    text
}

// A place and an encoding: (peak 1 3F800000)
pub fn peaked(place: u16, encoding: u32) -> Text
    ensures { result.bytes.items ≡ Peaked place encoding }
{
    let mut text = Text::new();
    text.put(b"(peak ");
    text.decimal(place);
    text.put(b" ");
    text.hexadecimal(8, encoding);
    text.put(b")");
    text
}
