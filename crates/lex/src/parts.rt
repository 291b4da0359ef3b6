// The parts of a line: what stands in a group, and what stands before and after its first space.
ghost use Rattle.std.specs.Prelude.{◌≡◌, ◌==◌, Decides, position};
ghost use Rattle.lex.specs.Reads.{Reads, held, held_both};
ghost use Rattle.lex.specs.Parts.{group, pair, Apart};

// Whether `text` is just `name`: the library's equality, under the promise of a reader.
pub fn is(text: &[u8], name: &[u8]) -> bool
    ensures { Decides result (text.now ≡ name.now) }
{
    text == name
}

// What stands between `head` and a closing parenthesis.
pub fn inside<'a>(text: &'a [u8], head: &[u8]) -> Option<&'a [u8]>
    ensures { Reads (group head.now) (λ _. Unit {0}) text.now (held result) }
{
    text.strip_prefix(head)?.strip_suffix(b")")
}

// Where the first space of `text` stands.
fn first_space(text: &[u8]) -> Option<usize>
    ensures { result ≡ position (λ byte. byte == 32) text.now }
{
    text.iter().position(|byte| *byte == b' ')
}

// The two parts of `text` around its first space.
pub fn split(text: &[u8]) -> Option<(&[u8], &[u8])>
    ensures { Reads pair Apart text.now (held_both result) }
{
    let space = first_space(text)?;
    Some((&text[..space], &text[space + 1..]))
}
