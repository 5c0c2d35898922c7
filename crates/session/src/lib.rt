// The small program on one input: bytes taken in parts of any size, and what is answered at the end.
#![tactic(auto)]

ghost use Rattle.std.specs.Prelude.{◌≡◌, ◌↔◌, IsTrue, replicate};
ghost use Rattle.marks.specs.Memory.{bits};
ghost use Rattle.script.specs.declared.Phase.{Phase};
ghost use Rattle.script.specs.Line.{blank, unmarked};
ghost use Rattle.script.specs.Reader.{fed, start_of, feed_of};
ghost use Rattle.text.specs.Pages.{page, write_on};
ghost use Rattle.answer.specs.Answer.{answer_by};

use script::{Memory, Phase, Reader};
use std::io;

// Where the reader is, the line that a part's end cuts, and memory with its marks.
#[derive(Drop)]
pub struct Session {
    pub reader: Reader,
    pub line: [u8; 45],
    pub memory: Memory,
}

impl Session {
    // Before the first byte.
    pub fn start() -> Session
        ensures reader { result.reader ≡ start_of }
        ensures line { result.line ≡ replicate 45 0 }
        ensures memory { result.memory.bytes ≡ blank }
        ensures marks { bits result.memory.marks ≡ unmarked }
    {
        let mut memory = Memory {
            bytes: [0; 16384],
            marks: [0; 2048],
        };
        let reader = script::start(&mut memory);
        Session {
            reader,
            line: [0; 45],
            memory,
        }
    }

    pub fn feed(&mut self, part: &[u8])
        ensures { fed self.new.reader self.new.line self.new.memory.bytes (bits self.new.memory.marks) ≡ feed_of part.now (fed self.old.reader self.old.line self.old.memory.bytes (bits self.old.memory.marks)) }
    {
        let reader = script::feed(self.reader, part, &mut self.line, &mut self.memory);
        self.reader = reader;
    }

    // Whether a line was bad: what follows it is not looked at (`rest_not_read` of crates/answer/proofs/Theorems.antt).
    pub fn is_bad(&self) -> bool
        ensures { IsTrue result ↔ (self.now.reader.phase ≡ Phase.Bad) }
    {
        matches!(self.reader.phase, Phase::Bad)
    }

    // After the last part: the text that the program writes, from the start of `out`, and its length.
    pub fn answer(&mut self, out: &mut [u8; 256]) -> usize
        ensures text { page out.new result ≡ write_on (answer_by self.old.reader self.old.memory.bytes (bits self.old.memory.marks)).text (page out.old 0) }
        ensures reader_after { self.new.reader ≡ self.old.reader }
        ensures line_after { self.new.line ≡ self.old.line }
        ensures bytes_after { self.new.memory.bytes ≡ (answer_by self.old.reader self.old.memory.bytes (bits self.old.memory.marks)).mem }
        ensures marks_after { bits self.new.memory.marks ≡ (answer_by self.old.reader self.old.memory.bytes (bits self.old.memory.marks)).marks }
    {
        answer::answer(self.reader, &mut self.memory, out)
    }

    // The text's length is at most that of its room (`fits` of crates/answer/proofs/Theorems.antt), so nothing is cut. Nobody can say what `to` takes; what becomes of
    // the session is the same as of `answer`, also where the write fails.
    pub fn write_answer(&mut self, to: &impl Print) -> io::Result<()>
        ensures reader_after { self.new.reader ≡ self.old.reader }
        ensures line_after { self.new.line ≡ self.old.line }
        ensures bytes_after { self.new.memory.bytes ≡ (answer_by self.old.reader self.old.memory.bytes (bits self.old.memory.marks)).mem }
        ensures marks_after { bits self.new.memory.marks ≡ (answer_by self.old.reader self.old.memory.bytes (bits self.old.memory.marks)).marks }
    {
        let mut text = [0u8; 256];
        let n = self.answer(&mut text);
        to.write_all(text::start_part(&text, n))
    }
}

#[cfg(test)]
mod tests {
    use super::*;
    use std::test::Fail;

    #[test]
    fn parts_of_an_input_are_answered_as_the_whole(rt: HostRuntime) -> Result<(), Fail> {
        let mut session = Session::start();
        session.feed(b"mem\t16\nat\t00000000\t7110");
        session.feed(b"2111f400\nrun\t3\n");
        assert!(rt; !session.is_bad());
        let mut text = [0u8; 256];
        let n = session.answer(&mut text);
        let first = text::start_part(&text, n.min(4));
        assert_eq!(rt; first, b"end\t".as_slice());
        Ok(())
    }

    #[test]
    fn a_bad_line_is_told_by_its_number(rt: HostRuntime) -> Result<(), Fail> {
        let mut session = Session::start();
        session.feed(b"mem\t16\nat\n");
        assert!(rt; session.is_bad());
        let mut text = [0u8; 256];
        let n = session.answer(&mut text);
        assert_eq!(rt; text::start_part(&text, n), b"bad\t2\n".as_slice());
        Ok(())
    }
}
