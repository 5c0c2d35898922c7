// Bytes taken one by one, in parts of any size.
ghost use Rattle.std.specs.Prelude.{◌≡◌};
ghost use Rattle.marks.specs.Memory.{bits};
ghost use Rattle.script.specs.Line.{blank, unmarked, next_number, number_after};
ghost use Rattle.script.specs.Reader.{fed, start_of, kept_by, kept_in, reader_after, told_by, fault_by, byte_of, feed_of};

use crate::faults::line_fault;
use crate::lines::whole_line;
use crate::rooms::zeros;
use crate::{Memory, Phase, Reader};

fn next_number(n: u64) -> u64
    ensures { result ≡ next_number n }
{
    n.saturating_add(1)
}

fn number_after(p: Phase, n: u64) -> u64
    ensures { result ≡ number_after p n }
{
    match p {
        Phase::First | Phase::Body(_) | Phase::Done(_, _) => next_number(n),
        Phase::Bad => n,
    }
}

fn end_line(r: Reader, line: &[u8; 45], memory: &mut Memory) -> Reader
    ensures value { result ≡ reader_after (told_by r line.now memory.old.bytes (bits memory.old.marks)) r.number (fault_by r line.now) }
    ensures bytes_after { memory.new.bytes ≡ (told_by r line.now memory.old.bytes (bits memory.old.marks)).mem }
    ensures marks_after { bits memory.new.marks ≡ (told_by r line.now memory.old.bytes (bits memory.old.marks)).marks }
{
    let l = text::start_part(line, r.used);
    let fault = line_fault(r.phase, r.fault, l);
    let phase = whole_line(r.phase, l, memory);
    Reader {
        phase,
        number: number_after(phase, r.number),
        used: 0,
        fault,
    }
}

fn keep_byte(r: Reader, b: u8, line: &mut [u8; 45]) -> Reader
    ensures value { result ≡ kept_by r }
    ensures line_after { line.new ≡ kept_in b r line.old }
{
    if r.used < 45 {
        line[r.used] = b;
        return Reader {
            used: r.used + 1,
            ..r
        };
    }
    r
}

#[tactic(auto, unfolding(crate::specs::Reader::byte_of))]
fn take_byte(r: Reader, b: u8, line: &mut [u8; 45], memory: &mut Memory) -> Reader
    ensures { fed result line.new memory.new.bytes (bits memory.new.marks) ≡ byte_of b (fed r line.old memory.old.bytes (bits memory.old.marks)) }
{
    if b == b'\n' {
        return end_line(r, line, memory);
    }
    let kept = keep_byte(r, b, line);
    if r.used < 44 {
        return kept;
    }
    end_line(kept, line, memory)
}

// Before the first byte: nothing is known, memory is zero, and none of it is marked.
#[tactic(auto, unfolding(crate::specs::Line::unmarked))]
pub fn start(memory: &mut Memory) -> Reader
    ensures value { result ≡ start_of }
    ensures bytes_after { memory.new.bytes ≡ blank }
    ensures marks_after { bits memory.new.marks ≡ unmarked }
{
    memory.bytes = zeros();
    memory.marks = [0u8; 2048];
    Reader {
        phase: Phase::First,
        number: 1,
        used: 0,
        fault: None,
    }
}

// A part of the input. `line` is room for a line that the part's end cuts.
pub fn feed(r: Reader, part: &[u8], line: &mut [u8; 45], memory: &mut Memory) -> Reader
    ensures { fed result line.new memory.new.bytes (bits memory.new.marks) ≡ feed_of part.now (fed r line.old memory.old.bytes (bits memory.old.marks)) }
{
    let mut s = r;
    for b in part {
        s = take_byte(s, *b, line, memory);
    }
    s
}
