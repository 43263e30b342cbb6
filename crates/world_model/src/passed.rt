//! How far the client has come on each line, by the numbers of its datagrams.

ghost use Rattle.std.specs.Prelude.{◌≡◌};

use pitch_io::Line;

// Of each line, the greatest number of a datagram that the client got; 0 before the first.
#[derive(Clone, Copy)]
pub(crate) struct Passed {
    pub(crate) a: usize,
    pub(crate) b: usize,
    pub(crate) gap: usize,
}

impl Passed {
    ghost use Rattle.world_model.specs.State.{passed_on, passed_to};

    pub(crate) fn on(&self, line: Line) -> usize
        ensures { result ≡ passed_on self.now line }
    {
        match line {
            Line::A => self.a,
            Line::B => self.b,
            Line::Gap => self.gap,
        }
    }

    // The client got a datagram of this number.
    pub(crate) fn up_to(&self, line: Line, number: usize) -> Passed
        ensures { result ≡ passed_to line number self.now }
    {
        match line {
            Line::A => Passed {
                a: number.max(self.a),
                ..*self
            },
            Line::B => Passed {
                b: number.max(self.b),
                ..*self
            },
            Line::Gap => Passed {
                gap: number.max(self.gap),
                ..*self
            },
        }
    }
}
