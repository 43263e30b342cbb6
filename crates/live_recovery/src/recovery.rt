//! The whole run of a live client that asks.

ghost use Rattle.std.specs.Prelude.{◌≡◌, Err};
ghost use Rattle.pitch_io.specs.Causes.{HasCause};
ghost use Rattle.stream_print.specs.Sinks.{CountsFault};
ghost use Rattle.stream_print.specs.Told.{told};
ghost use Rattle.live_recovery.specs.Recovering.{RecoverEnds};
ghost use Rattle.live_recovery.specs.Standing.{NamesNoDevice};

use crate::counts::Counts;
use crate::error::RecoverError;
use crate::recovering::{ROOM_FOR_ONE, Recovering};
use crate::setup::RecoverSetup;
use live_net::LiveNet;
use pitch_io::Sink;
use std::alloc::Global;
use stream_print::piece_buffer;

/// Hears lines of datagrams, and asks by the sessions of the peers for what was lost, until the
/// wait is over, or until each unit has ended, where units are named: an End of Session of it came,
/// and its client has every message up to that one. Prints a line for each block of a unit that is
/// listened to and for each image that took a unit's reach on, and at the end the book of each
/// unit. Answers what was counted.
///
/// No other bytes end a run, neither of a line nor of a peer: a connection is closed by them at
/// most, and begun again after a pause of 1 to 64 seconds. What was printed is written before each
/// wait. Where all units have ended the run ends in place of the next wait: what each line and peer
/// had for the turn came before that.
/// But where two copies of a message differ, the run ends by `Disagree`, without books: whatever
/// the venues are, what came speaks honestly of none. Of each unit the last 65,536 sequences are
/// compared, for which 1 MiB is taken at its first block.
/// `OutOfMemory` is also what a run of 2^64 - 1 steps would be answered, and one whose counts would
/// pass 2^64 - 1: no program runs so long.
pub fn recover<N: LiveNet, O: Sink>(
    alloc: Global,
    setup: &RecoverSetup,
    net: &mut N,
    out: &mut O,
) -> Result<Counts, RecoverError>
    // How it ended says which calls were made, what came by them and what was written.
    ensures ends { RecoverEnds setup.now result (N.calls net.old) (N.calls net.new)
        (told O.written out.old out.new) }
    ensures net_cause { HasCause (N.faults net.old) (N.faults net.new)
        (result ≡ Err RecoverError.Net) }
    ensures write_cause { CountsFault O.faults out.old out.new (result ≡ Err RecoverError.Write) }
    // Where the answer names no device, the net never failed.
    ensures net_still { NamesNoDevice result → N.faults net.new ≡ N.faults net.old }
{
    let mut recovering = Recovering::make(alloc, setup)?;
    let mut into = piece_buffer(alloc, ROOM_FOR_ONE)?;
    'calls: for _ in 0..u64::MAX {
        let goes_on = recovering.step(alloc, setup, net, &mut into, out)?;
        if !goes_on {
            return recovering.finish(alloc, out);
        }
    }
    Err(RecoverError::OutOfMemory)
}
