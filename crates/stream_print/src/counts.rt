//! Counts of a capture's packets, by what became of each, and their line.

ghost use Rattle.std.specs.Prelude.{◌≡◌, ◌+◌, ◌≤◌, ◌++◌, take, length};
ghost use Rattle.feed_lines.specs.LineSize.{line_size};
ghost use Rattle.stream_print.specs.Carriers.{counts_line};
ghost use Rattle.stream_print.specs.Counting.{counts_with};

use pitch_fields::{put_byte, put_number, put_text};

/// What became of a packet of a capture.
#[derive(Clone, Copy, PartialEq, Eq)]
pub enum PacketUse {
    /// It carries no datagram that was asked for.
    PassedOver,
    /// Its datagram holds whole blocks and nothing else.
    Used,
    /// Its datagram is empty, or has a rest after its whole blocks.
    Faulty,
}

/// How many packets a capture has, how many of them carry a datagram that was asked for, and how
/// many of these datagrams are faulty. A count stays at the end of its type.
#[derive(Clone, Copy, PartialEq, Eq)]
pub struct PacketCounts {
    pub packets: u64,
    pub used: u64,
    pub faulty: u64,
}

/// Nothing was counted.
pub const NO_COUNTS: PacketCounts = PacketCounts {
    packets: 0,
    used: 0,
    faulty: 0,
};

/// The counts with one packet more.
pub fn counts_with(is: PacketUse, counts: PacketCounts) -> PacketCounts
    ensures { result ≡ counts_with is counts }
{
    let packets = counts.packets.saturating_add(1);
    let used = counts.used.saturating_add(1);
    let faulty = counts.faulty.saturating_add(1);
    match is {
        PacketUse::PassedOver => PacketCounts { packets, ..counts },
        PacketUse::Used => PacketCounts {
            packets,
            used,
            ..counts
        },
        PacketUse::Faulty => PacketCounts {
            packets,
            used,
            faulty,
        },
    }
}

/// Writes the line of what was counted into a buffer from a place, and answers where it ends.
#[tactic(auto, unfolding(crate::specs::Carriers::counts_line))]
pub fn put_counts_line(out: &mut [u8], at: usize, counts: PacketCounts) -> usize
    requires { at + line_size ≤ length out.old }
    ensures end { result ≤ at + line_size }
    ensures text { take result out.new ≡ take at out.old ++ counts_line counts }
    ensures kept { length out.new ≡ length out.old }
{
    let packets = put_text(out, at, b"packets ");
    let counted = put_number(out, packets, counts.packets);
    let used = put_text(out, counted, b" used ");
    let of_use = put_number(out, used, counts.used);
    let faulty = put_text(out, of_use, b" faulty ");
    let of_fault = put_number(out, faulty, counts.faulty);
    put_byte(out, of_fault, b'\n')
}
