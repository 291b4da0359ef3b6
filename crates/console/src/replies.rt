// The reply to a line: the text of its answer, and a line feed.
ghost use Rattle.std.specs.Prelude.{◌≡◌, ℕ, ◌≤◌, List, [], ◌∷◌, ◌++◌, length};
ghost use Rattle.session.specs.Answers.{Answered};
ghost use Rattle.session.specs.Sessions.{state, engine_of};
ghost use Rattle.console.specs.Lines.{Keeps};

use crate::line::Line;
use arrayvec::ArrayVec;
use session::session::Session;

// The answer to the whole line, of which the front is kept.
pub fn answer(session: &mut Session, line: &Line, out: &mut [u8; 32]) -> usize
    ensures answered { (whole : List ℕ) → Keeps line.now whole → Answered (state session.old) whole out.old (state session.new) (engine_of session.new) result out.new }
    ensures fits { result ≤ 32 }
{
    session.answer(line.bytes(), out)
}

// The text of an answer, with a line feed behind it.
pub fn with_line_feed(text: &[u8]) -> ArrayVec<u8, 33>
    requires { length text.now ≤ 32 }
    ensures { result.items ≡ text.now ++ 10 ∷ [] }
{
    let mut line = ArrayVec::new();
    line.try_extend_from_slice(text).unwrap();
    line.push(b'\n');
    line
}
