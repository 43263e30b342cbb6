//! The whole run of a listener.

ghost use Rattle.std.specs.Prelude.{◌≡◌, Err};
ghost use Rattle.pitch_io.specs.Causes.{HasCause};
ghost use Rattle.stream_print.specs.Sinks.{CountsFault};
ghost use Rattle.stream_print.specs.Told.{told};
ghost use Rattle.live_listen.specs.Listening.{ListenEnds};
ghost use Rattle.live_listen.specs.Standing.{NamesNoDevice};

use crate::counts::Counts;
use crate::error::ListenError;
use crate::listener::Listener;
use crate::setup::ListenSetup;
use live_net::LineNet;
use pitch_io::Sink;
use std::alloc::Global;
use stream_print::piece_buffer;

/// The room for a datagram, which none of UDP passes.
pub const DATAGRAM_ROOM: usize = 65536;

/// Hears lines of datagrams until the wait is over, prints a line for each block of a unit that is
/// listened to, and at the end the book of each unit. Answers what was counted.
///
/// Of a datagram the whole blocks at its start are heard, and no bytes end a run. What was printed
/// is written before each wait. `OutOfMemory` is also what a run of 2^64 - 1 calls would be
/// answered, and one whose counts would pass 2^64 - 1: no program runs so long.
pub fn listen<N: LineNet, O: Sink>(
    alloc: Global,
    setup: &ListenSetup,
    net: &mut N,
    out: &mut O,
) -> Result<Counts, ListenError>
    // How it ended says which calls were made and what was written.
    ensures ends { ListenEnds setup.now result (N.calls net.old) (N.calls net.new)
        (told O.written out.old out.new) }
    ensures net_cause { HasCause (N.faults net.old) (N.faults net.new)
        (result ≡ Err ListenError.Net) }
    ensures write_cause { CountsFault O.faults out.old out.new (result ≡ Err ListenError.Write) }
    // Where the answer names no device, the net never failed.
    ensures net_still { NamesNoDevice result → N.faults net.new ≡ N.faults net.old }
{
    let mut listener = Listener::make(alloc, setup)?;
    let mut into = piece_buffer(alloc, DATAGRAM_ROOM)?;
    'calls: for _ in 0..u64::MAX {
        let goes_on = listener.step(alloc, setup, net, &mut into, out)?;
        if !goes_on {
            return listener.finish(alloc, out);
        }
    }
    Err(ListenError::OutOfMemory)
}
