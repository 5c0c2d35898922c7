// Filling a buffer from whatever reads, as the programs of the gate take their cases.
#![tactic(auto)]

ghost use Rattle.std.specs.Prelude.{◌≤◌, ◌<◌, length, take, IfOk};
ghost use Rattle.std.specs.Io.KnownBytes.{Consumes, IsAtEnd};

use std::io;
use std::io::Read;

// Reads until buf is full or the input ends, and returns how many bytes it put at the start of buf.
// On an empty buf it makes no call.
pub fn read_full<R: Read>(input: &mut R, buf: &mut [u8]) -> io::Result<usize>
    ensures bound { IfOk result (λ n. n ≤ length buf.new) }
    ensures bytes { IfOk result (λ n. Consumes (R.remaining input.old) (R.remaining input.new) (take n buf.new)) }
    ensures end { IfOk result (λ n. n < length buf.new → IsAtEnd (R.remaining input.new)) }
{
    let mut done = 0;
    while done < buf.len() {
        let n = input.read(&mut buf[done..])?;
        if n == 0 {
            break;
        }
        done += n;
    }
    Ok(done)
}

#[cfg(test)]
mod tests {
    use super::*;
    use std::test::Fail;

    #[test]
    fn fills_the_buffer_and_leaves_the_rest(rt: HostRuntime) -> Result<(), Fail> {
        let mut input: &[u8] = b"abcde";
        let mut buf = [0u8; 3];
        assert_eq!(rt; read_full(&mut input, &mut buf)?, 3);
        assert_eq!(rt; &buf[..], b"abc".as_slice());
        assert_eq!(rt; input, b"de".as_slice());
        Ok(())
    }

    #[test]
    fn stops_at_the_end_and_keeps_what_is_beyond(rt: HostRuntime) -> Result<(), Fail> {
        let mut input: &[u8] = b"ab";
        let mut buf = [9u8; 4];
        assert_eq!(rt; read_full(&mut input, &mut buf)?, 2);
        assert_eq!(rt; &buf[..], b"ab\x09\x09".as_slice());
        assert_eq!(rt; read_full(&mut input, &mut buf)?, 0);
        Ok(())
    }
}
