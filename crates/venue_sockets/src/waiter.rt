//! One wait for all sockets and for the time.

use line_sockets::{MOST_LAST_TURNS, TimeLimit, shorter};
use mio::{Events, Poll, Registry};
use std::alloc::Global;
use std::time::{Clock, Duration};
use std::{io, net};

/// How long a venue goes on: so many seconds from its start, and so many from the end of its input
/// on, where these are limited.
#[derive(Clone, Copy, Debug, PartialEq, Eq)]
pub struct RunTime {
    pub seconds: Option<u64>,
    pub after: Option<u64>,
}

/// What tells when a socket or the input may have something, and when the time is up.
#[derive(Drop)]
pub struct VenueWaiter<R> {
    rt: R,
    poll: Poll,
    events: Events,
    time: TimeLimit,
    after: Option<u64>,
    // The time from the end of the input on, once it has ended.
    ending: Option<TimeLimit>,
    // How many turns are left, once the time is up.
    last_turns: Option<u32>,
}

impl<R: net::Net + Clock + Drop> VenueWaiter<R> {
    /// A wait for so many sockets and the input, for so long from now.
    pub(crate) fn make(
        rt: R,
        alloc: Global,
        sockets: usize,
        time: RunTime,
    ) -> io::Result<VenueWaiter<R>> {
        let poll = Poll::new(&rt)?;
        let events = Events::with_capacity(alloc, sockets.saturating_add(1))?;
        let after = time.after;
        let time = TimeLimit::start(&rt, time.seconds)?;
        Ok(VenueWaiter {
            rt,
            poll,
            events,
            time,
            after,
            ending: None,
            last_turns: None,
        })
    }

    /// Where a socket is registered of which the wait is to tell.
    pub(crate) fn registry(&self) -> &Registry {
        self.poll.registry()
    }

    /// By what sockets are opened and the clock is read.
    pub(crate) fn runtime(&self) -> &R {
        &self.rt
    }

    /// What the last wait told.
    pub(crate) fn events(&self) -> &Events {
        &self.events
    }

    /// The input is at its end, now or before.
    pub(crate) fn end_input(&mut self) -> io::Result<()> {
        if self.ending.is_none() {
            self.ending = Some(TimeLimit::start(&self.rt, self.after)?);
        }
        Ok(())
    }

    // How much of the time is left, where it is limited.
    fn time_left(&self) -> io::Result<Option<Duration>> {
        let left = self.time.left(&self.rt)?;
        match &self.ending {
            Some(ending) => Ok(shorter(left, ending.left(&self.rt)?)),
            None => Ok(left),
        }
    }

    /// Waits until something may be there or a signal comes: no longer than `most`, and not at all
    /// where `more` is set, which says that something was left.
    ///
    /// Answers whether the sockets and the input are to be asked. Once the time is up they are as
    /// long as `more` is set, at most 1,024 times.
    pub(crate) fn wake(&mut self, more: bool, most: Duration) -> io::Result<bool> {
        if let Some(turns) = self.last_turns {
            self.last_turns = Some(turns.saturating_sub(1));
            self.events.clear();
            return Ok(more && turns > 0);
        }
        let most = if more {
            Some(Duration::ZERO)
        } else {
            shorter(Some(most), self.time_left()?)
        };
        self.poll.poll(&mut self.events, most)?;
        if self.time_left()? == Some(Duration::ZERO) {
            self.last_turns = Some(MOST_LAST_TURNS);
        }
        Ok(true)
    }
}
