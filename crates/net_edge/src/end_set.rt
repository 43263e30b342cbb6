//! Which ends of a net got End.

ghost use Rattle.std.specs.Prelude.{◌≡◌};
ghost use Rattle.net_edge.specs.layers.Ends.{and_end, has_end, no_ends};

use pitch_io::LinkEnd;

/// Some of the four ends.
#[derive(Clone, Copy)]
pub(crate) struct EndSet {
    grp_client: bool,
    grp_server: bool,
    spin_client: bool,
    spin_server: bool,
}

impl EndSet {
    /// None of them.
    pub(crate) fn none() -> EndSet
        ensures { result ≡ no_ends }
    {
        EndSet {
            grp_client: false,
            grp_server: false,
            spin_client: false,
            spin_server: false,
        }
    }

    /// Whether an end is among them.
    pub(crate) fn has(self, at: LinkEnd) -> bool
        ensures { result ≡ has_end at self }
    {
        match at {
            LinkEnd::GrpClient => self.grp_client,
            LinkEnd::GrpServer => self.grp_server,
            LinkEnd::SpinClient => self.spin_client,
            LinkEnd::SpinServer => self.spin_server,
        }
    }

    /// These and an end.
    pub(crate) fn with(self, at: LinkEnd) -> EndSet
        ensures { result ≡ and_end at self }
    {
        let mut ends = self;
        match at {
            LinkEnd::GrpClient => ends.grp_client = true,
            LinkEnd::GrpServer => ends.grp_server = true,
            LinkEnd::SpinClient => ends.spin_client = true,
            LinkEnd::SpinServer => ends.spin_server = true,
        }
        ends
    }
}
