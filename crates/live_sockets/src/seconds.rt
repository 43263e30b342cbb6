//! The seconds that a wait tells.

ghost use Rattle.std.specs.Prelude.{◌≡◌, ◌↔◌, ◌≤◌, ◌+◌, true, false, IfOk};
ghost use Rattle.std.specs.Duration.{as_nanos};
ghost use Rattle.live_sockets.specs.layers.Seconds.{second};

use std::io;
use std::marker::Model;
use std::time::{Clock, Duration, Instant};

const SECOND: u64 = 1;

/// When a second was told last, by a clock, in nanoseconds.
#[derive(Drop)]
pub struct Seconds {
    last: Instant,
}

impl Model for Seconds {
    ghost use Rattle.std.specs.Prelude.{ℕ};
    ghost use Rattle.std.specs.Time.{instant_nanos};

    ghost Value = { ℕ };

    ghost view = { λ s. instant_nanos s.last };
}

// Whether a second has passed.
fn is_second(passed: Duration) -> bool
    ensures { result ≡ true ↔ second ≤ as_nanos passed }
{
    passed >= Duration::from_secs(SECOND)
}

impl Seconds {
    /// The first second begins now.
    pub fn start<R: Clock>(rt: &R) -> io::Result<Seconds> {
        Ok(Seconds {
            last: Instant::now(rt)?,
        })
    }

    /// How long it is to the end of this second.
    pub fn left<R: Clock>(&self, rt: &R) -> io::Result<Duration>
        ensures { IfOk result (λ left. as_nanos left ≤ second) }
    {
        Ok(Duration::from_secs(SECOND).saturating_sub(self.last.elapsed(rt)?))
    }

    /// Whether this second is over. Then the next one begins now, however long it took.
    pub fn is_over<R: Clock>(&mut self, rt: &R) -> io::Result<bool>
        ensures passed { IfOk result (λ over. over ≡ true → self.old + second ≤ self.new) }
        ensures same { IfOk result (λ over. over ≡ false → self.new ≡ self.old) }
    {
        let now = Instant::now(rt)?;
        let over = is_second(now.duration_since(self.last));
        if over {
            self.last = now;
        }
        Ok(over)
    }
}
