//! Waiting until a descriptor is ready, by the system's `poll`.

use libc::net::{POLLIN, POLLOUT};
use libc::types::pollfd;
use std::os::fd::AsRawFd;
use std::time::Duration;

/// What a descriptor is to be ready for. A listener is read from where it accepts.
#[derive(Clone, Copy)]
pub(crate) enum Ready {
    ToRead,
    ToWrite,
}

// As long as it takes.
const NO_LIMIT: i32 = -1;

/// Waits until there is something to read or to accept, and answers false where it did not come
/// within so many milliseconds of this time. A signal may end the wait before, with true.
pub fn comes_within(source: &impl AsRawFd, time: Duration) -> bool {
    let millis = i32::try_from(time.as_millis()).unwrap_or(i32::MAX);
    poll(source, Ready::ToRead, millis) != 0
}

/// Waits until a call would not have to, as long as it takes. A signal may end the wait before.
pub(crate) fn wait(stream: &impl AsRawFd, ready: Ready) {
    poll(stream, ready, NO_LIMIT);
}

// Answers 0 where the time is up.
fn poll(stream: &impl AsRawFd, ready: Ready, millis: i32) -> i32 {
    let events = match ready {
        Ready::ToRead => POLLIN,
        Ready::ToWrite => POLLOUT,
    };
    let mut asked = [pollfd {
        fd: stream.as_raw_fd(),
        events,
        revents: 0,
    }];
    libc::net::poll(&mut asked, millis)
}
