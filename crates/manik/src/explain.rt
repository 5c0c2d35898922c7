// Why an input is bad, in words, on standard error: line, byte, what stands there, and what should.
use script::{Fault, Reader, Reason};
use std::fmt;

// The byte where a line goes wrong: a newline where the line ends too early.
#[derive(Clone, Copy)]
struct Found(u8);

impl fmt::Display for Found {
    fn fmt<W: fmt::Write>(&self, f: &mut fmt::Formatter<W>) -> fmt::Result {
        match self.0 {
            b'\t' => write!(f, "a tab"),
            b'\n' => write!(f, "the line ends"),
            b'\r' => write!(f, "a carriage return"),
            b' ' => write!(f, "a space"),
            b'!'..=b'~' => write!(f, "`{}`", char::from(self.0)),
            _ => write!(f, "a byte that is no character"),
        }
    }
}

// Where a line goes wrong, and what stands there. A fault of the whole input has no place.
#[derive(Clone, Copy)]
struct Place(Fault);

impl fmt::Display for Place {
    fn fmt<W: fmt::Write>(&self, f: &mut fmt::Formatter<W>) -> fmt::Result {
        let fault = self.0;
        if fault.place == 0 {
            return write!(f, ":");
        }
        write!(f, ", byte {}: {};", fault.place, Found(fault.byte))
    }
}

// What a field, a line or the input should be.
fn wanted(reason: Reason) -> &'static str {
    match reason {
        Reason::First => "the first line is `mem`, a tab and memory's size",
        Reason::Word => "a line after the first is `at`, `mark` or `run`, a tab and its fields",
        Reason::AfterRun => "nothing stands after the `run` line",
        Reason::Decimal => "a decimal has 1 to 5 digits, and ends its line",
        Reason::LeadingZero => "a decimal has no leading zero",
        Reason::TooLarge => "a size or a budget is at most 16384",
        Reason::Address => "an address has 8 digits, 0 to 9 or a to f, and a tab follows",
        Reason::Bytes => "1 to 16 bytes, of digits 0 to 9 or a to f, end their line",
        Reason::Odd => "a byte has two digits",
        Reason::Outside => "from the address that starts here on, not all lies inside memory",
        Reason::Unended => "the last line does not end in a newline",
        Reason::Missing => "the input ends before its `run` line",
    }
}

// Nothing is said of a good input.
pub fn explain(err: &impl Print, r: Reader) {
    let Some(fault) = script::why(r) else {
        return;
    };
    let number = r.number;
    let place = Place(fault);
    let wanted = wanted(fault.reason);
    let _ = println!(err; "manik: line {number}{place} {wanted}");
}
