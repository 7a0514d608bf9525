// An input, read into a buffer.
#![tactic(auto)]

ghost use Rattle.std.specs.Prelude.{◌<◌, length, take, IfOk};
ghost use Rattle.std.specs.Io.{ReadsAtMost};
ghost use Rattle.std.specs.Io.KnownBytes.{Consumes, IsAtEnd};

use std::io;
use std::io::{ErrorKind, Read};

// Reads until the buffer is full or the input ends, and gives how many bytes stand at the buffer's front then: fewer than it holds only where the input
// ended. A read that a signal interrupts is made again.
pub fn read_full<R: Read>(reader: &mut R, buf: &mut [u8]) -> io::Result<usize>
    ensures bound { ReadsAtMost result buf.new }
    ensures bytes { IfOk result (λ n. Consumes (R.remaining reader.old) (R.remaining reader.new) (take n buf.new)) }
    ensures end { IfOk result (λ n. n < length buf.new → IsAtEnd (R.remaining reader.new)) }
{
    let mut done = 0;
    for _ in 0..u64::MAX {
        if done >= buf.len() {
            return Ok(done);
        }
        match reader.read(&mut buf[done..]) {
            Ok(0) => return Ok(done),
            Ok(n) => done += n,
            Err(e) => {
                if e.kind() != ErrorKind::Interrupted {
                    return Err(e);
                }
            }
        }
    }
    // Interrupted more often than can be counted.
    Err(io::Error::from(ErrorKind::Interrupted))
}

#[cfg(test)]
mod tests {
    use super::*;
    use std::test::Fail;

    // Gives a byte a call, and is interrupted before each; at its end it fails or ends.
    #[derive(Drop)]
    struct Halting<'a> {
        left: &'a [u8],
        is_ready: bool,
        fails: bool,
    }

    impl Read for Halting<'_> {
        fn read(&mut self, buf: &mut [u8]) -> io::Result<usize> {
            self.is_ready = !self.is_ready;
            if !self.is_ready {
                return Err(io::Error::from(ErrorKind::Interrupted));
            }
            let Some((byte, others)) = self.left.split_first() else {
                if self.fails {
                    return Err(io::Error::from(ErrorKind::BrokenPipe));
                }
                return Ok(0);
            };
            let Some(place) = buf.first_mut() else {
                return Ok(0);
            };
            *place = *byte;
            self.left = others;
            Ok(1)
        }
    }

    fn halting_over(left: &[u8], fails: bool) -> Halting<'_> {
        Halting {
            left,
            is_ready: true,
            fails,
        }
    }

    #[test]
    fn an_input_is_read_to_its_end_or_until_the_buffer_is_full(
        rt: HostRuntime,
    ) -> Result<(), Fail> {
        let mut buf = [9u8; 4];
        assert_eq!(rt; read_full(&mut halting_over(b"abc", false), &mut buf)?, 3);
        assert_eq!(rt; buf, *b"abc\x09");
        assert_eq!(rt; read_full(&mut halting_over(b"vwxyz", false), &mut buf)?, 4);
        assert_eq!(rt; buf, *b"vwxy");
        Ok(())
    }

    #[test]
    fn a_read_that_fails_is_told(rt: HostRuntime) {
        let mut buf = [0u8; 4];
        let told = read_full(&mut halting_over(b"abc", true), &mut buf);
        assert!(rt; told.is_err_and(|e| e.kind() == ErrorKind::BrokenPipe));
    }
}
