// Why nothing is listed: one line on standard error.
use crate::ranges::{Range, Why};
use std::io;
use std::io::Error;

// A byte that would end the line or steer a terminal is not shown.
fn plain(b: u8) -> u8 {
    if b.is_ascii_control() { b'?' } else { b }
}

fn put_plain(out: &mut [u8], from: usize, word: &[u8]) -> usize {
    let mut at = from;
    for b in word {
        at = text::put(out, at, plain(*b));
    }
    at
}

// The program's name, and then the parts. The room has 256 bytes beside a word of the longest, 4,096.
// Not by Display: a word of the command line may be no UTF-8, and its bytes from 128 on are written as they are.
fn put_line(out: &mut [u8; 4352], parts: &[&[u8]]) -> usize {
    let mut at = text::put_all(out, 0, b"manik-list: ");
    for part in parts {
        at = put_plain(out, at, part);
    }
    at
}

fn write_line(err: &impl Print, parts: &[&[u8]]) -> io::Result<()> {
    let mut out = [0u8; 4352];
    let at = put_line(&mut out, parts);
    let n = text::put(&mut out, at, b'\n');
    err.write_all(text::start_part(&out, n))
}

pub fn say(err: &impl Print, parts: &[&[u8]]) {
    let _ = write_line(err, parts);
}

// Why a range of the image in a file, which has so many bytes, is refused.
pub fn say_why(err: &impl Print, file: &[u8], why: Why, range: Range, length: usize) {
    let Range { start, end } = range;
    let _ = match why {
        Why::TooLong => write_line(err, &[file, b" is longer than 65536 bytes"]),
        Why::StartOdd => println!(err; "manik-list: START {start} is odd"),
        Why::EndOdd => println!(err; "manik-list: END {end} is odd"),
        Why::Reversed => println!(err; "manik-list: START {start} is above END {end}"),
        Why::Outside => println!(err;
            "manik-list: END {end} is above the image's length, {length}"
        ),
    };
}

// A call of the system failed on the file, and the error says why.
pub fn say_failed(err: &impl Print, file: &[u8], e: Error) {
    let mut out = [0u8; 4352];
    let n = put_line(&mut out, &[file]);
    saying::say_failure(err, text::start_part(&out, n), e);
}
