// The console: each line of standard input gets its answer on standard output, written before more is read.
#![tactic(auto)]

mod line;
mod replies;

use line::Line;
use replies::{answer, with_line_feed};
use session::session::Session;
use std::io;
use std::io::{Read, Write};

// Writes the answer to the line with a line feed, in one piece.
fn respond(rt: &HostRuntime, session: &mut Session, line: &Line) -> io::Result<()> {
    let mut out = [0; 32];
    let count = answer(session, line, &mut out);
    rt.stdout()
        .write_all(with_line_feed(&out[..count]).as_slice())
}

// Takes what was read, and answers each line as it ends.
fn feed(rt: &HostRuntime, session: &mut Session, line: &mut Line, bytes: &[u8]) -> io::Result<()> {
    for byte in bytes {
        if *byte == b'\n' {
            respond(rt, session, line)?;
            line.clear();
        } else {
            line.push(*byte);
        }
    }
    Ok(())
}

fn run(rt: &HostRuntime) -> io::Result<()> {
    let mut session = Session::new();
    let mut line = Line::new();
    let mut chunk = [0; 4096];
    // A loop that reads until its input ends counts, since it has to be seen to end.
    for _ in 0..u64::MAX {
        let count = rt.stdin().read(&mut chunk)?;
        if count == 0 {
            break;
        }
        feed(rt, &mut session, &mut line, &chunk[..count])?;
    }
    // The last line may lack its line feed.
    if !line.bytes().is_empty() {
        respond(rt, &mut session, &line)?;
    }
    Ok(())
}

fn main(rt: HostRuntime) -> io::Result<()> {
    run(&rt)
}
