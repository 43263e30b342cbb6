//! What a live client counts.

ghost use Rattle.std.specs.Prelude.{◌≡◌, ◌+◌, IfOk, length};
ghost use Rattle.unit_packets.specs.Cutting.{rest_of};
ghost use Rattle.stream_print.specs.Carriers.{is_faulty};
ghost use Rattle.live_units.specs.Coming.{LiveSetup, passed_of};
ghost use Rattle.live_recovery.specs.Counting.{with_counted};

use pitch_fields::OutOfMemory;
use sending_end::Passed;

/// What came in a run.
#[derive(Clone, Copy, PartialEq, Eq)]
pub struct Counts {
    /// Datagrams of any line.
    pub datagrams: u64,
    /// Those of them that are empty, or have a rest behind their whole blocks.
    pub faulty: u64,
    /// Blocks that were heard.
    pub blocks: u64,
    /// Blocks of units that are not listened to.
    pub stray: u64,
}

/// Before the first call.
pub const NONE_COUNTED: Counts = Counts {
    datagrams: 0,
    faulty: 0,
    blocks: 0,
    stray: 0,
};

// A sum; a count that stands at the end of its type is not passed.
fn sum(count: u64, more: u64) -> Result<u64, OutOfMemory>
    ensures { IfOk result (λ sum. sum ≡ count + more) }
{
    match count.checked_add(more) {
        Some(sum) => Ok(sum),
        None => Err(OutOfMemory),
    }
}

// Whether a datagram is empty, or has so long a rest behind its whole blocks.
fn is_faulty(datagram: &[u8], rest: u64) -> bool
    ensures { rest ≡ length (rest_of datagram.now) → result ≡ is_faulty datagram.now }
{
    datagram.is_empty() || rest > 0
}

impl Counts {
    /// After a datagram that had this.
    pub(crate) fn after(self, datagram: &[u8], passed: Passed) -> Result<Counts, OutOfMemory>
        ensures { IfOk result (λ counts. (s : LiveSetup) → passed ≡ passed_of s datagram.now
            → counts ≡ with_counted s datagram.now self) }
    {
        let faulty = u64::from(is_faulty(datagram, passed.rest));
        Ok(Counts {
            datagrams: sum(self.datagrams, 1)?,
            faulty: sum(self.faulty, faulty)?,
            blocks: sum(self.blocks, passed.heard)?,
            stray: sum(self.stray, passed.others)?,
        })
    }
}
