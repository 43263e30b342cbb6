//! A stream whose calls are made again until they are done or fail.

ghost use Rattle.std.specs.Prelude.{IfErr};
ghost use Rattle.std.specs.Io.{ReadsAtMost, WritesAtMost};
ghost use Rattle.patient_io.specs.layers.Faults.{IsFault};

use crate::waiting::{Ready, wait};
use std::io;
use std::io::{Error, ErrorKind, Read, Write};
use std::os::fd::AsRawFd;

// How often a call is made at most.
const MOST_TRIES: u32 = 1_000_000;

/// A stream over another. A read or a write that a signal breaks off is made again, and one that
/// would have to wait is made again as soon as the descriptor is ready, however long that takes. A
/// call that is made 1,000,000 times fails with `TimedOut`. It does not tell its bytes.
#[derive(Drop)]
pub struct Patient<S> {
    stream: S,
}

impl<S> Patient<S> {
    /// A patient stream over this one. Takes no memory.
    pub fn make(stream: S) -> Patient<S> {
        Patient { stream }
    }
}

// Waits where the stream was not ready, and hands a fault back.
fn get_over<S: AsRawFd>(error: Error, stream: &S, ready: Ready) -> io::Result<()>
    ensures { IfErr result IsFault }
{
    match error.kind() {
        ErrorKind::Interrupted => Ok(()),
        ErrorKind::WouldBlock => {
            wait(stream, ready);
            Ok(())
        }
        _ => Err(error),
    }
}

impl<S: Read + AsRawFd> Read for Patient<S> {
    fn read(&mut self, into: &mut [u8]) -> io::Result<usize>
        ensures bound { ReadsAtMost result into.new }
        ensures fault { IfErr result IsFault }
    {
        for _ in 0..MOST_TRIES {
            match self.stream.read(into) {
                Ok(count) => return Ok(count),
                Err(error) => get_over(error, &self.stream, Ready::ToRead)?,
            }
        }
        Err(Error::from(ErrorKind::TimedOut))
    }
}

impl<S: Write + AsRawFd> Write for Patient<S> {
    fn write(&mut self, piece: &[u8]) -> io::Result<usize>
        ensures bound { WritesAtMost result piece.now }
        ensures fault { IfErr result IsFault }
    {
        for _ in 0..MOST_TRIES {
            match self.stream.write(piece) {
                Ok(count) => return Ok(count),
                Err(error) => get_over(error, &self.stream, Ready::ToWrite)?,
            }
        }
        Err(Error::from(ErrorKind::TimedOut))
    }

    fn flush(&mut self) -> io::Result<()> {
        self.stream.flush()
    }
}
