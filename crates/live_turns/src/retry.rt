//! When the connection with a peer is begun, and begun again.

ghost use Rattle.std.specs.Prelude.{◌≡◌, ℕ, ◌+◌, ◌==◌, ◌∷◌, List, Bool, true, min};
ghost use Rattle.std.specs.Prelude.{if◌then◌else◌};
ghost use Rattle.live_net.specs.LiveCalls.{LiveCall, Wait};
ghost use Rattle.live_net.specs.declared.live.WaitEnd.TheVariants as wait_end;
ghost use Rattle.live_turns.specs.Retry.{stands, may_begin, begins_by, ends_by, ends_in_row};
ghost use Rattle.live_turns.specs.Retry.{with_end, pause_after, longest_pause};
ghost use Rattle.live_turns.specs.Turning.{Knows};

/// The longest pause before a connection is begun again, in seconds.
const LONGEST_PAUSE: u8 = 64;

/// How the connection with a peer is.
#[derive(Clone, Copy, PartialEq, Eq)]
pub enum Link {
    /// It stands, for so many seconds, counted up to the longest pause.
    Up(u8),
    /// There is none, for so many seconds more at least.
    Down(u8),
}

/// When the connection with a peer is begun, and begun again.
#[derive(Clone, Copy, PartialEq, Eq)]
pub struct Retry {
    pub link: Link,
    /// How many seconds were let pass since it last ended, or are until it is begun again.
    pub pause: u8,
}

/// Before the first call.
pub const AT_FIRST: Retry = Retry {
    link: Link::Down(0),
    pause: 0,
};

// A sum of seconds, counted up to the longest pause.
fn within_longest(seconds: u8, more: u8) -> u8
    ensures { result ≡ min (seconds + more) longest_pause }
{
    if seconds < LONGEST_PAUSE && more < LONGEST_PAUSE {
        return (seconds + more).min(LONGEST_PAUSE);
    }
    LONGEST_PAUSE
}

// The pause that comes after one.
fn longer(pause: u8) -> u8
    ensures { result ≡ (if pause == 0 then 1 else min (pause + pause) longest_pause) }
{
    if pause == 0 {
        return 1;
    }
    within_longest(pause, pause)
}

impl Retry {
    /// Whether the connection stands.
    pub fn stands(self) -> bool
        ensures { (peer : ℕ) (run : List LiveCall) → Knows peer run self
            → result ≡ stands peer run }
    {
        matches!(self.link, Link::Up(_))
    }

    /// Whether none stands, and it is time to begin one.
    pub fn may_begin(self) -> bool
        ensures { (peer : ℕ) (run : List LiveCall) → Knows peer run self
            → result ≡ may_begin peer run }
    {
        match self.link {
            Link::Up(_) => false,
            Link::Down(seconds) => seconds == 0,
        }
    }

    /// After a second.
    pub fn second(self) -> Retry
        ensures { (peer : ℕ) (run : List LiveCall) (more : Bool) → Knows peer run self
            → Knows peer (Wait more wait_end.Second ∷ run) result }
    {
        let link = match self.link {
            Link::Up(seconds) => Link::Up(within_longest(seconds, 1)),
            Link::Down(seconds) => Link::Down(seconds.saturating_sub(1)),
        };
        Retry { link, ..self }
    }

    /// After the connection was begun.
    pub fn begun(self) -> Retry
        ensures { (peer : ℕ) (run : List LiveCall) (call : LiveCall) → Knows peer run self
            → begins_by peer call ≡ true → Knows peer (call ∷ run) result }
    {
        Retry {
            link: Link::Up(0),
            ..self
        }
    }

    // How many seconds are let pass if it ends now.
    fn pause_at_end(self) -> u8
        ensures { (peer : ℕ) (run : List LiveCall) → Knows peer run self
            → result ≡ pause_after (with_end peer (ends_in_row peer run) run) }
    {
        match self.link {
            Link::Up(seconds) if seconds >= self.pause => 1,
            Link::Up(_) => longer(self.pause),
            Link::Down(_) => longer(self.pause),
        }
    }

    /// After it ended, or was refused. One that stood for no less than the pause before it is begun
    /// again after a second; else the pause is twice the one before, up to the longest.
    pub fn ended(self) -> Retry
        ensures { (peer : ℕ) (run : List LiveCall) (call : LiveCall) → Knows peer run self
            → ends_by peer call ≡ true → Knows peer (call ∷ run) result }
    {
        let pause = self.pause_at_end();
        Retry {
            link: Link::Down(pause),
            pause,
        }
    }
}
