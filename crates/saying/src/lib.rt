// What a program says on standard error where the system could not do what was asked of it.
#![tactic(auto)]

ghost use Rattle.std.specs.Prelude.{OnOk};
ghost use Rattle.std.specs.Io.{StartsWith};
ghost use Rattle.saying.specs.Said.{TellsFailure};

use std::io::{Cursor, Error, ErrorKind, Print, Write};
use std::{io, str};

// The system's words alone: std adds a number to them.
fn words(said: &[u8]) -> &[u8]
    ensures { StartsWith said.now result.now }
{
    let Ok(text) = str::from_utf8(said) else {
        return said;
    };
    match text.rsplit_once(" (os error ") {
        Some((words, _)) => words.as_bytes(),
        None => said,
    }
}

// A line: what failed, and why. Each part is tried, whatever became of the one before it.
fn write_failure<W: Write>(to: &mut W, what: &[u8], e: Error) -> io::Result<()>
    ensures { OnOk result (TellsFailure (W.contents to.old) (W.contents to.new) what.now) }
{
    let mut said = Cursor::new([0u8; 128]);
    let _ = write!(said, "{e}");
    let n = said.position() as usize;
    let why = words(text::start_part(said.get_ref(), n));
    let told = to.write_all(what);
    let parted = to.write_all(b": ");
    let reasoned = to.write_all(why);
    let ended = to.write_all(b"\n");
    told?;
    parted?;
    reasoned?;
    ended?;
    Ok(())
}

pub fn say_failure(err: &impl Print, what: &[u8], e: Error) {
    let _ = write_failure(&mut io::writer(err), what, e);
}

// A failed write to standard output. Whoever closed a pipe wants no more, and nothing is said.
pub fn say_unwritten(err: &impl Print, what: &[u8], e: Error) {
    if e.kind() != ErrorKind::BrokenPipe {
        say_failure(err, what, e);
    }
}

#[cfg(test)]
mod tests {
    use super::*;
    use std::test::Fail;

    #[test]
    fn a_failure_is_told_without_the_system_number(rt: HostRuntime) -> Result<(), Fail> {
        let mut line = Cursor::new([0u8; 64]);
        write_failure(&mut line, b"reading", Error::from_raw_os_error(2))?;
        let n = line.position() as usize;
        let said = text::start_part(line.get_ref(), n);
        assert_eq!(rt; said, b"reading: No such file or directory\n".as_slice());
        Ok(())
    }

    #[test]
    fn words_of_a_program_stay_whole(rt: HostRuntime) -> Result<(), Fail> {
        assert_eq!(rt; words(b"Not UTF-8"), b"Not UTF-8".as_slice());
        assert_eq!(rt;
            words(b"a (os error 1) b (os error 2)"),
            b"a (os error 1) b".as_slice()
        );
        Ok(())
    }

    // As a pipe that has little room: more than three bytes at once are none.
    #[derive(Drop)]
    struct Narrow {
        line: Cursor<[u8; 64]>,
    }

    impl Write for Narrow {
        fn write(&mut self, part: &[u8]) -> io::Result<usize> {
            if 3 < part.len() {
                return Err(Error::new(ErrorKind::WouldBlock, "no room"));
            }
            self.line.write(part)
        }

        fn flush(&mut self) -> io::Result<()> {
            Ok(())
        }
    }

    #[test]
    fn a_part_that_fails_ends_no_line(rt: HostRuntime) -> Result<(), Fail> {
        let mut narrow = Narrow {
            line: Cursor::new([0u8; 64]),
        };
        let told = write_failure(&mut narrow, b"reading", Error::from_raw_os_error(2));
        assert!(rt; told.is_err());
        let n = narrow.line.position() as usize;
        assert_eq!(rt;
            text::start_part(narrow.line.get_ref(), n),
            b": \n".as_slice()
        );
        Ok(())
    }
}
