//! How long a net waits.

ghost use Rattle.std.specs.Prelude.{◌≡◌, IfOk, is_some, option_map};
ghost use Rattle.line_sockets.specs.layers.Waits.{nanos_in, nanos_of, shorter_of};

use std::io;
use std::time::{Clock, Duration, Instant};

/// A time from its start on, which may be without end.
#[derive(Clone, Copy)]
pub struct TimeLimit {
    start: Instant,
    /// How long it is, where it is limited.
    pub limit: Option<Duration>,
}

impl TimeLimit {
    /// So many seconds from now, where they are limited.
    pub fn start<R: Clock>(rt: &R, seconds: Option<u64>) -> io::Result<TimeLimit>
        ensures { IfOk result (λ time. nanos_of time.limit ≡ option_map nanos_in seconds) }
    {
        let limit = match seconds {
            Some(seconds) => Some(Duration::from_secs(seconds)),
            None => None,
        };
        Ok(TimeLimit {
            start: Instant::now(rt)?,
            limit,
        })
    }

    /// How much of it is left, where it is limited.
    pub fn left<R: Clock>(&self, rt: &R) -> io::Result<Option<Duration>>
        ensures limited { IfOk result (λ left. is_some left ≡ is_some self.now.limit) }
        ensures most { IfOk result (λ left.
            shorter_of (nanos_of left) (nanos_of self.now.limit) ≡ nanos_of left) }
    {
        match self.limit {
            Some(limit) => Ok(Some(limit.saturating_sub(self.start.elapsed(rt)?))),
            None => Ok(None),
        }
    }
}

/// The shorter of two times, where there are limits.
pub fn shorter(a: Option<Duration>, b: Option<Duration>) -> Option<Duration>
    ensures { nanos_of result ≡ shorter_of (nanos_of a) (nanos_of b) }
{
    match (a, b) {
        (Some(a), Some(b)) => Some(if a < b { a } else { b }),
        (Some(a), None) => Some(a),
        (None, b) => b,
    }
}
