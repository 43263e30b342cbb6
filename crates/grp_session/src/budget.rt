//! The budget of gap requests that sessions share, by the second, the minute and the day.

ghost use Rattle.std.specs.Prelude.{◌≡◌, ℕ, ◌+◌, ◌<◌, ◌≤◌, List, [], IsNone, None};
ghost use Rattle.grp_session.specs.Budget.{Spent, Counted, limit_reached, next_second, spending};

use std::marker::Model;

/// How many gap requests may still be accepted: in this second, in this minute, and ever (a budget
/// is made each day). A second is a tick, a minute is 60 of them from the making on. Sessions can
/// share one.
#[derive(Drop)]
pub struct GapBudget {
    second_limit: u32,
    minute_limit: u32,
    day_limit: u32,
    // So many ticks of the minute passed.
    phase: u8,
    // So many requests were accepted in this second, in this minute, and ever.
    second: u32,
    minute: u32,
    day: u32,
}

impl Model for GapBudget {
    ghost use Rattle.std.specs.Prelude.{◌<◌};
    ghost use Rattle.grp_session.specs.Budget.{Counts};

    ghost Value = { Counts };

    ghost view = { λ b. record {
      limits = record {
        second = b.second_limit;
        minute = b.minute_limit;
        day = b.day_limit;
      };
      phase = b.phase;
      second = b.second;
      minute = b.minute;
      day = b.day;
    } };

    ghost invariant = { λ b. b.phase < 60 };
}

impl GapBudget {
    /// Nothing is spent. The limits are numbers of requests: in a second, in a minute, in a day. It
    /// takes no memory.
    pub fn make(second: u32, minute: u32, day: u32) -> GapBudget
        ensures spent { Counted result (record { now = 0; accepted = [] }) }
        ensures limits { result.limits ≡ record { second = second; minute = minute; day = day } }
    {
        GapBudget {
            second_limit: second,
            minute_limit: minute,
            day_limit: day,
            phase: 0,
            second: 0,
            minute: 0,
            day: 0,
        }
    }

    /// The next second. It takes no memory.
    pub fn tick(&mut self)
        // Of the ticks at which requests were accepted: they are the same, one tick later.
        ensures spent { (s : Spent) → Counted self.old s → Counted self.new (next_second s) }
        ensures limits { self.new.limits ≡ self.old.limits }
    {
        self.second = 0;
        self.phase += 1;
        if self.phase == 60 {
            self.phase = 0;
            self.minute = 0;
        }
    }

    // The status that says why no request is accepted now: `D`, `M` or `S`.
    pub(crate) fn limit_reached(&self) -> Option<u8>
        // Of the ticks at which requests were accepted.
        ensures reached { (s : Spent)
            → Counted self.now s → result ≡ limit_reached self.now.limits s }
        ensures room { IsNone result → (self.now.second < self.now.limits.second)
            × (self.now.minute < self.now.limits.minute) × (self.now.day < self.now.limits.day) }
    {
        if self.day >= self.day_limit {
            return Some(b'D');
        }
        if self.minute >= self.minute_limit {
            return Some(b'M');
        }
        if self.second >= self.second_limit {
            return Some(b'S');
        }
        None
    }

    // Counts a request that is accepted.
    pub(crate) fn spend(&mut self)
        requires second { self.old.second < self.old.limits.second }
        requires minute { self.old.minute < self.old.limits.minute }
        requires day { self.old.day < self.old.limits.day }
        // Of the ticks at which requests were accepted: this one is one more.
        ensures spent { (s : Spent) → Counted self.old s → Counted self.new (spending s) }
        ensures limits { self.new.limits ≡ self.old.limits }
    {
        self.second += 1;
        self.minute += 1;
        self.day += 1;
    }

    // The same counts again.
    pub(crate) fn copy(&self) -> GapBudget
        ensures { result ≡ self.now }
    {
        GapBudget {
            second_limit: self.second_limit,
            minute_limit: self.minute_limit,
            day_limit: self.day_limit,
            phase: self.phase,
            second: self.second,
            minute: self.minute,
            day: self.day,
        }
    }
}
