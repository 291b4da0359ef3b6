// Answers that need no rounding.
ghost use Rattle.std.specs.Prelude.{◌≡◌};

use rounding::encoding::Encoding;
use rounding::flags::Flags;
use rounding::round::Answer;

// Nothing is raised.
pub fn silent(encoding: Encoding) -> Answer
    ensures { (result.encoding.bits ≡ encoding.bits) × (result.flags.number ≡ 0) }
{
    Answer {
        encoding,
        flags: Flags::none(),
    }
}
