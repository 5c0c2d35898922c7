// Runs the inputs of examples/ one after the other (docs/EXAMPLES.md), each fed in parts of 7 bytes, and writes each one's name and answer.
#![tactic(auto)]

use reading::read_full;
use session::Session;
use std::io;
use std::io::Read;

// Where there is no count, nothing is read.
fn count_in(count: &[u8]) -> usize {
    text::address(count).map_or(0, |n| n as usize)
}

fn feed_all(
    session: &mut Session,
    input: &mut impl Read,
    part: &mut [u8; 7],
    count: usize,
) -> io::Result<()> {
    for _ in 0..count / 7 {
        read_full(input, part)?;
        session.feed(part);
    }
    let rest = &mut part[..count % 7];
    read_full(input, rest)?;
    session.feed(rest);
    Ok(())
}

// At most 10,000 inputs, so that the loop ends. A loop for vectors and vectors_asm too would take the room that is read first and a closure that
// borrows the others: no shorter than this one.
fn answer_all(rt: &impl Print, input: &mut impl Read) -> io::Result<()> {
    let mut name = [0u8; 41];
    let mut count = [0u8; 8];
    let mut part = [0u8; 7];
    for _ in 0..10000 {
        if read_full(input, &mut name)? < 41 {
            return Ok(());
        }
        read_full(input, &mut count)?;
        rt.write_all(&name)?;
        let mut session = Session::start();
        feed_all(&mut session, input, &mut part, count_in(&count))?;
        session.write_answer(rt)?;
    }
    Ok(())
}

fn main(rt: HostRuntime) -> io::Result<()> {
    answer_all(&rt, &mut rt.reader())
}
