//! Patient streams, over one that is broken off, and over sockets that do not block.

use patient_io::Patient;
use std::io::{Error, ErrorKind, Read, Write};
use std::os::fd::{AsRawFd, RawFd};
use std::os::unix::net::UnixStream;
use std::process::Abort;
use std::{io, thread};

// A stream of which so many calls are broken off by a signal, and the next reads or writes one
// byte, or fails where there is a fault.
#[derive(Drop)]
struct Broken {
    signals: u32,
    fault: Option<ErrorKind>,
}

impl Broken {
    fn call(&mut self) -> io::Result<usize> {
        if self.signals > 0 {
            self.signals -= 1;
            return Err(Error::from(ErrorKind::Interrupted));
        }
        match self.fault {
            Some(kind) => Err(Error::from(kind)),
            None => Ok(1),
        }
    }
}

impl Read for Broken {
    fn read(&mut self, into: &mut [u8]) -> io::Result<usize> {
        Ok(self.call()?.min(into.len()))
    }
}

impl Write for Broken {
    fn write(&mut self, piece: &[u8]) -> io::Result<usize> {
        Ok(self.call()?.min(piece.len()))
    }

    fn flush(&mut self) -> io::Result<()> {
        Ok(())
    }
}

// No descriptor: nothing waits for it.
impl AsRawFd for Broken {
    fn as_raw_fd(&self) -> RawFd {
        -1
    }
}

// How many calls are broken off, the fault behind them, and the error, if there is one.
const CALLS: [(u32, Option<ErrorKind>, Option<ErrorKind>); 4] = [
    (0, None, None),
    (3, None, None),
    (3, Some(ErrorKind::BrokenPipe), Some(ErrorKind::BrokenPipe)),
    (1_000_000, None, Some(ErrorKind::TimedOut)),
];

fn ends_so(answer: io::Result<usize>, error: Option<ErrorKind>) -> bool {
    match answer {
        Ok(count) => count == 1 && error.is_none(),
        Err(given) => error == Some(given.kind()),
    }
}

fn broken_calls_end<R: Abort>(rt: &R, calls: &[(u32, Option<ErrorKind>, Option<ErrorKind>)]) {
    for (signals, fault, error) in calls {
        let broken = || Broken {
            signals: *signals,
            fault: *fault,
        };
        assert!(rt; ends_so(Patient::make(broken()).read(&mut [0u8; 8]), *error));
        assert!(rt; ends_so(Patient::make(broken()).write(b"piece"), *error));
    }
}

#[test]
fn a_call_that_is_broken_off_is_made_again(rt: HostRuntime) {
    broken_calls_end(&rt, &CALLS);
}

// More than a socket holds.
const LENGTH: usize = 2_000_000;

fn give(stream: UnixStream, bytes: &[u8]) -> bool {
    Patient::make(stream).write_all(bytes).is_ok()
}

fn take(stream: UnixStream, into: &mut Vec<u8>) -> bool {
    Patient::make(stream).read_to_end(into).is_ok()
}

#[test]
fn a_stream_that_is_not_ready_is_waited_for(rt: HostRuntime) {
    let (near, far) = UnixStream::pair(&rt).expect(&rt, "a pair");
    near.set_nonblocking(true).expect(&rt, "a mode");
    far.set_nonblocking(true).expect(&rt, "a mode");
    let bytes = Vec::from_elem(rt.alloc(), 7u8, LENGTH).expect(&rt, "memory");
    let mut taken = Vec::new(rt.alloc());
    let (given, ended) = thread::join(&rt, || give(near, &bytes), || take(far, &mut taken));
    assert!(rt; given && ended);
    assert!(rt; taken.as_slice() == bytes.as_slice());
}
