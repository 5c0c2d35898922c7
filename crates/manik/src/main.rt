// The small program of document 01: standard input to standard output, in parts of 4,096 bytes; why an input is bad goes to standard error.
#![tactic(auto)]

mod explain;

use explain::explain;
use saying::{say_failure, say_unwritten};
use session::Session;
use std::io;
use std::io::Read;

// A proved loop has to end, and nothing says that an input does: no input has so many parts.
fn feed_all(session: &mut Session, input: &mut impl Read) -> io::Result<()> {
    let mut part = [0u8; 4096];
    for _ in 0..u64::MAX {
        let n = input.read(&mut part)?;
        session.feed(&part[..n]);
        // What follows a bad line is not read.
        if n == 0 || session.is_bad() {
            break;
        }
    }
    Ok(())
}

fn main(rt: HostRuntime) {
    let err = rt.stderr();
    let mut session = Session::start();
    match feed_all(&mut session, &mut rt.stdin()) {
        Ok(()) => {
            if let Err(e) = session.write_answer(&rt) {
                say_unwritten(&err, b"manik: standard output", e);
            }
            explain(&err, session.reader);
        }
        Err(e) => say_failure(&err, b"manik: standard input", e),
    }
}
