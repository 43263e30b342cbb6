//! The input, of which a wait tells, and whose end is the end of a run.

use mio::unix::SourceFd;
use mio::{Interest, Registry, Token};
use std::io;
use std::io::{ErrorKind, Read};
use std::os::fd::AsRawFd;

/// The token by which a wait tells of the input.
pub const INPUT: Token = Token(0);

/// Has the wait tell of the input, and answers whether it can: a file is never waited for.
pub fn register_input(input: &impl AsRawFd, registry: &Registry) -> io::Result<bool> {
    let number = input.as_raw_fd();
    match registry.register(&mut SourceFd(&number), INPUT, Interest::READABLE) {
        Ok(()) => Ok(true),
        Err(error) if error.kind() == ErrorKind::PermissionDenied => Ok(false),
        Err(error) => Err(error),
    }
}

/// Has the next wait tell again of what is in the input. A wait tells of a change alone: what was
/// there before it, as an end that came with the last bytes, is told only where this was called.
pub fn ask_again(input: &impl AsRawFd, registry: &Registry) -> io::Result<()> {
    let number = input.as_raw_fd();
    registry.reregister(&mut SourceFd(&number), INPUT, Interest::READABLE)
}

/// Reads the input once, and passes over what it says. Answers whether it is at its end, which one
/// that fails is too.
pub(crate) fn has_ended<I: Read + AsRawFd>(input: &mut I, registry: &Registry) -> io::Result<bool> {
    let mut said = [0u8; 4_096];
    let ended = match input.read(&mut said) {
        Ok(count) => count == 0,
        Err(error) => match error.kind() {
            ErrorKind::WouldBlock | ErrorKind::Interrupted => false,
            _ => true,
        },
    };
    if !ended {
        ask_again(input, registry)?;
    }
    Ok(ended)
}
