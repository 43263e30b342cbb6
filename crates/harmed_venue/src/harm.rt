//! What is done to a venue's datagrams and connections.

ghost use Rattle.std.specs.Prelude.{◌≡◌};
ghost use Rattle.harmed_venue.specs.Lines.{share_of};

/// Of a hundred datagrams so many, on the lines of each kind: 0 to 100, and more is as 100.
#[derive(Clone, Copy)]
pub struct Shares {
    /// On lines A.
    pub a: u8,
    /// On lines B.
    pub b: u8,
    /// On gap lines.
    pub gap: u8,
}

impl Shares {
    // The share of a line. The lines go round: A, B and the gap line of a unit.
    pub(crate) fn of(&self, line: u16) -> u8
        ensures { result ≡ share_of self.now line }
    {
        match line % 3 {
            0 => self.a,
            1 => self.b,
            _ => self.gap,
        }
    }
}

/// What is done to a venue's datagrams and to its clients' connections.
#[derive(Clone, Copy)]
pub struct Harm {
    /// From which all is drawn.
    pub number: u64,
    /// Datagrams that never go out.
    pub lose: Shares,
    /// Those of the others that go out twice.
    pub repeat: Shares,
    /// Those of the others that are held back, and go out behind the next one of their line.
    pub swap: Shares,
    /// All connections are cut whenever so many seconds have passed.
    pub cut: Option<u64>,
    /// How many lines there are. What is sent on others is left alone.
    pub lines: u16,
    /// How many places there are. Connections at others are left alone.
    pub places: u16,
}
