//! One wait for all sockets, for the input and for the time.

use crate::input::{INPUT, has_ended, register_input};
use crate::time_limit::{TimeLimit, shorter};
use mio::{Events, Poll, Registry};
use std::alloc::Global;
use std::io::Read;
use std::os::fd::AsRawFd;
use std::time::{Clock, Duration};
use std::{io, net};

/// How many turns there are after the end of the input or of the time, where something is left.
pub const MOST_LAST_TURNS: u32 = 1_024;

/// What tells when a socket may have something, when the input is at its end, and when the time is
/// up.
#[derive(Drop)]
pub struct Waiter<R, I> {
    rt: R,
    poll: Poll,
    events: Events,
    input: I,
    time: TimeLimit,
    // How many turns are left, once it has ended.
    last_turns: Option<u32>,
}

impl<R: net::Net + Clock + Drop, I: Read + AsRawFd + Drop> Waiter<R, I> {
    /// A wait for so many sockets, for so many seconds from now, where they are limited.
    pub fn make(
        rt: R,
        alloc: Global,
        sockets: usize,
        input: I,
        seconds: Option<u64>,
    ) -> io::Result<Waiter<R, I>> {
        let poll = Poll::new(&rt)?;
        let events = Events::with_capacity(alloc, sockets.saturating_add(1))?;
        let time = TimeLimit::start(&rt, seconds)?;
        let _is_waited_for = register_input(&input, poll.registry())?;
        Ok(Waiter {
            rt,
            poll,
            events,
            input,
            time,
            last_turns: None,
        })
    }

    /// Where a socket is registered of which the wait is to tell.
    pub fn registry(&self) -> &Registry {
        self.poll.registry()
    }

    /// By what sockets are opened and the clock is read.
    pub fn runtime(&self) -> &R {
        &self.rt
    }

    /// What the last wait told.
    pub fn events(&self) -> &Events {
        &self.events
    }

    // Whether the last wait told of the input.
    fn is_input_told(&self) -> bool {
        self.events.iter().any(|event| event.token() == INPUT)
    }

    // Whether the input or the time is at its end.
    fn is_at_end(&mut self) -> io::Result<bool> {
        if self.is_input_told() && has_ended(&mut self.input, self.poll.registry())? {
            return Ok(true);
        }
        Ok(self.time.left(&self.rt)? == Some(Duration::ZERO))
    }

    /// Waits until a socket may have something or a signal comes: no longer than `most`, where that
    /// is said, and not at all where `more` is set, which says that something was left on a socket.
    ///
    /// Answers whether the sockets are to be asked. Once the input or the time is at its end they
    /// are as long as `more` is set, at most 1,024 times.
    pub fn wake(&mut self, more: bool, most: Option<Duration>) -> io::Result<bool> {
        if let Some(turns) = self.last_turns {
            self.last_turns = Some(turns.saturating_sub(1));
            self.events.clear();
            return Ok(more && turns > 0);
        }
        let most = if more {
            Some(Duration::ZERO)
        } else {
            shorter(most, self.time.left(&self.rt)?)
        };
        self.poll.poll(&mut self.events, most)?;
        if self.is_at_end()? {
            self.last_turns = Some(MOST_LAST_TURNS);
        }
        Ok(true)
    }
}
