//! Which call of its net a listener makes next.

ghost use Rattle.std.specs.Prelude.{◌≡◌, ◌+◌, [], ◌∷◌, List, ℕ, Some};
ghost use Rattle.live_net.specs.LineCalls.{LineCall, Receive};
ghost use Rattle.live_listen.specs.Due.{due, after_line, is_more_left, taken_from};
ghost use Rattle.live_listen.specs.Standing.{IsNext};
ghost use Rattle.live_net.specs.declared.net.Received.TheVariants as received;

/// How many datagrams of a line are taken at most before the next line has its turn.
pub const MOST_TAKEN: u16 = 64;

/// The call that is due.
#[derive(Clone, Copy, PartialEq, Eq)]
pub struct Place {
    /// The line that is asked next, or none where the wait is due.
    pub line: Option<u16>,
    /// How many datagrams the line has given, one after another.
    pub taken: u16,
    /// Whether since the last wait a line gave as many as are taken.
    pub more: bool,
}

/// Before the first call.
pub const AT_START: Place = Place {
    line: None,
    taken: 0,
    more: false,
};

/// After a wait at which a datagram may have come.
pub const AT_FIRST_LINE: Place = Place {
    line: Some(0),
    taken: 0,
    more: false,
};

// After a line has had its turn.
fn after_line(lines: u16, line: u16, more: bool) -> Place
    // Whatever calls there were, of which the last asked this line.
    ensures next { (run : List LineCall) → due lines run ≡ Some (after_line lines line run)
        → taken_from (line + 1) run ≡ 0 → more ≡ is_more_left run → IsNext lines result run }
{
    let following = match line.checked_add(1) {
        Some(following) if following < lines => Some(following),
        _ => None,
    };
    Place {
        line: following,
        taken: 0,
        more,
    }
}

/// After a line had no datagram.
pub fn after_quiet(lines: u16, line: u16, place: Place) -> Place
    ensures next { (run : List LineCall) (room : ℕ) → IsNext lines place run
        → IsNext lines result (Receive line room [] received.Quiet ∷ run) }
{
    after_line(lines, line, place.more)
}

/// After a line gave a datagram.
pub fn after_datagram(lines: u16, line: u16, place: Place) -> Place
    requires { place.line ≡ Some line }
    ensures next { (run : List LineCall) (room n : ℕ) (bytes : List ℕ) → IsNext lines place run
        → IsNext lines result (Receive line room bytes (received.Got n) ∷ run) }
{
    if place.taken >= MOST_TAKEN - 1 {
        return after_line(lines, line, true);
    }
    Place {
        taken: place.taken + 1,
        ..place
    }
}
