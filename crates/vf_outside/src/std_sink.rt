ghost use Rattle.std.specs.Prelude.{◌≡◌, ◌≢◌, ◌<◌, ◌≤◌, OnOk, OnErr, length};
ghost use Rattle.std.specs.Io.KnownBytes.{Appends};
ghost use Rattle.vf_outside.specs.Told.{AppendsPart};
ghost use Rattle.vf_outside.specs.Faults.{one_more, Rose};

use crate::sink::{PutFault, Sink};
use std::io::{ErrorKind, Stderr, Stdout, Write};
use std::marker::Model;

/// A sink over a writer, as standard output or standard error. It tells what the writer tells,
/// which is nothing for those two. Its count of faults rises at each `Err`.
#[derive(Drop)]
pub struct StdSink<W: Write + Drop> {
    writer: W,
    faults: u64,
}

impl<W: Write + Drop> Model for StdSink<W> {
    ghost use Rattle.vf_outside.specs.Told.{StreamState};

    ghost Value = { StreamState };

    ghost view = { λ s. record { written = W.contents s.writer; faults = s.faults } };
}

impl StdSink<Stdout> {
    /// Standard output.
    pub fn out(stream: Stdout) -> Self
        ensures { result.faults ≡ 0 }
    {
        StdSink {
            writer: stream,
            faults: 0,
        }
    }
}

impl StdSink<Stderr> {
    /// Standard error.
    pub fn err(stream: Stderr) -> Self
        ensures { result.faults ≡ 0 }
    {
        StdSink {
            writer: stream,
            faults: 0,
        }
    }
}

/// Writes all of the bytes. An interrupted write is tried again; one that takes nothing is a fault.
fn write_whole<W: Write>(writer: &mut W, bytes: &[u8]) -> Result<(), PutFault>
    ensures ok { OnOk result (Appends (W.contents writer.old) (W.contents writer.new) bytes.now) }
    ensures part { OnErr result
        (AppendsPart (W.contents writer.old) (W.contents writer.new) bytes.now) }
    ensures never_memory { result ≢ Err PutFault.Memory }
{
    let mut at = 0;
    for _ in 0..u64::MAX {
        if at == bytes.len() {
            return Ok(());
        }
        match writer.write(&bytes[at..]) {
            Ok(0) => break,
            Ok(count) => at += count,
            Err(error) if error.kind() == ErrorKind::Interrupted => {}
            Err(_) => break,
        }
    }
    Err(PutFault::Failed)
}

impl<W: Write + Drop> Sink for StdSink<W> {
    ghost written = { λ s. s.written };

    ghost faults = { λ s. s.faults };

    fn put(&mut self, bytes: &[u8]) -> Result<(), PutFault>
        requires { 0 < length bytes.now }
        ensures ok { OnOk result (Appends self.old.written self.new.written bytes.now) }
        ensures failed { result ≡ Err PutFault.Failed → Rose self.old.faults self.new.faults }
        ensures part { result ≡ Err PutFault.Failed
            → AppendsPart self.old.written self.new.written bytes.now }
        ensures never_memory { result ≢ Err PutFault.Memory }
        ensures later { self.old.faults ≤ self.new.faults }

        ensures counted { OnErr result (self.new.faults ≡ one_more self.old.faults) }
        ensures kept { OnOk result (self.new.faults ≡ self.old.faults) }
    {
        let result = write_whole(&mut self.writer, bytes);
        if result.is_err() {
            self.faults = self.faults.saturating_add(1);
        }
        result
    }
}

#[cfg(test)]
mod tests {
    use super::*;
    use std::io;
    use std::test::Fail;

    /// Is interrupted once, takes at most two bytes at a time, and nothing when its room is used
    /// up.
    #[derive(Drop)]
    struct Narrow {
        interrupted: bool,
        room: usize,
        taken: Vec<u8>,
    }

    impl Write for Narrow {
        fn write(&mut self, buf: &[u8]) -> io::Result<usize> {
            if !self.interrupted {
                self.interrupted = true;
                return Err(io::Error::from(ErrorKind::Interrupted));
            }
            let count = buf.len().min(self.room).min(2);
            self.taken.extend_from_slice(&buf[..count])?;
            self.room -= count;
            Ok(count)
        }

        fn flush(&mut self) -> io::Result<()> {
            Ok(())
        }
    }

    #[test]
    fn a_narrow_writer_gets_all_that_it_takes(rt: HostRuntime) -> Result<(), Fail> {
        let writer = Narrow {
            interrupted: false,
            room: 8,
            taken: Vec::new(rt.alloc()),
        };
        let mut sink = StdSink { writer, faults: 0 };
        sink.put(b"abcde")?;
        assert_eq!(rt; sink.writer.taken.as_slice(), b"abcde".as_slice());
        assert_eq!(rt; sink.put(b"fghi"), Err(PutFault::Failed));
        assert_eq!(rt; sink.writer.taken.as_slice(), b"abcdefgh".as_slice());
        assert_eq!(rt; sink.faults, 1);
        Ok(())
    }

    #[test]
    fn the_standard_streams_take_bytes(rt: HostRuntime) -> Result<(), Fail> {
        StdSink::out(rt.stdout()).put(b"to standard output\n")?;
        StdSink::err(rt.stderr()).put(b"to standard error\n")?;
        Ok(())
    }
}
