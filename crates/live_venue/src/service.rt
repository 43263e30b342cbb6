//! The whole run of a live venue.

ghost use Rattle.std.specs.Prelude.{◌≡◌, ◌≢◌, Err, IfOk, List, Option, length};
ghost use Rattle.pitch_io.specs.Causes.{HasCause};
ghost use Rattle.stream_print.specs.Sinks.{CountsFault};
ghost use Rattle.venue_net.specs.VenueCalls.{VenueCall};
ghost use Rattle.live_venue.specs.Report.{IsUnwritten, ReportEnds};
ghost use Rattle.live_venue.specs.Serving.{ServeEnds};
ghost use Rattle.live_venue.specs.Standing.{EndsWith, GoesOn};

use crate::error::{ReportError, ServeError};
use crate::report::report_end;
use crate::serving::Serving;
use crate::setup::ServeSetup;
use pitch_fields::OutOfMemory;
use pitch_io::Sink;
use std::alloc::Global;
use venue_net::VenueNet;
use venue_turns::ROOM_FOR_ONE;

// Room for a piece of the input, or of a client's bytes.
fn room_for(alloc: Global, size: usize) -> Result<Vec<u8>, OutOfMemory>
    ensures { IfOk result (λ room. length room.items ≡ size) }
{
    Ok(Vec::from_elem(alloc, 0u8, size)?)
}

// Makes call after call until the wait is over.
fn run<N: VenueNet>(
    alloc: Global,
    setup: &ServeSetup,
    serving: &mut Serving,
    net: &mut N,
) -> Result<(), ServeError>
    // Whatever run led here.
    ensures ends { (start : Option (List VenueCall))
        → GoesOn setup.now start (N.calls net.old) serving.old
        → EndsWith setup.now result start (N.calls net.new) serving.new.units }
    ensures cause { HasCause (N.faults net.old) (N.faults net.new) (result ≡ Err ServeError.Net) }
    ensures still { result ≢ Err ServeError.Net → N.faults net.new ≡ N.faults net.old }
{
    let mut into = room_for(alloc, ROOM_FOR_ONE)?;
    'calls: for _ in 0..u64::MAX {
        let goes_on = serving.step(alloc, setup, net, &mut into)?;
        if !goes_on {
            return Ok(());
        }
    }
    Err(ServeError::OutOfMemory)
}

/// Serves units until the wait is over: accepts the commands of the input, each of which begins
/// with its unit, as they come; sends the datagrams of each unit on lines A and B, and a heartbeat
/// each second; lets clients in at the places of its Gap Request Proxy and its Spin Server, and
/// answers them.
///
/// The lines of the unit at index `i` are 3 i, 3 i + 1 and, for gap requests, 3 i + 2; its places
/// are the 128 from 128 i on, the first 64 of them at its proxy. No bytes of a client end a run:
/// its connection is closed by them at most. A client for which more than 1,048,576 bytes wait, or
/// which has no room for five seconds, is closed. The first fault of the input ends the run by
/// `Input`, once all that was accepted before it was sent.
/// `OutOfMemory` is also what a run of 2^64 - 1 steps would be answered: no program runs so long.
pub fn serve<N: VenueNet>(alloc: Global, setup: &ServeSetup, net: &mut N) -> Result<(), ServeError>
    // How it ended says which calls were made, what came by them and what was sent.
    ensures ends { ServeEnds setup.now result (N.calls net.old) (N.calls net.new) }
    ensures cause { HasCause (N.faults net.old) (N.faults net.new) (result ≡ Err ServeError.Net) }
    ensures still { result ≢ Err ServeError.Net → N.faults net.new ≡ N.faults net.old }
{
    let mut serving = Serving::make(alloc, setup)?;
    run(alloc, setup, &mut serving, net)
}

/// Serves units as [`serve`] does. Once the run is over, and where the input has a fault, it writes
/// to the report the book of each unit, by rising number: the book that all messages leave which
/// the unit accepted, in the text in which `follow` prints that of a unit whose last message has
/// come, or of which heartbeats alone have.
///
/// `Write` is answered where the report's sink failed, which then has a prefix of the text; so has
/// it at `OutOfMemory`. Where the net failed, nothing is written to it.
pub fn serve_and_report<N: VenueNet, O: Sink>(
    alloc: Global,
    setup: &ServeSetup,
    net: &mut N,
    report: &mut O,
) -> Result<(), ReportError>
    // How the run ended, as `serve` says it, and what was written of the books that its units have
    // then.
    ensures reports { ReportEnds setup.now result (N.calls net.old) (N.calls net.new)
        (O.written report.old) (O.written report.new) }
    ensures cause { HasCause (N.faults net.old) (N.faults net.new)
        (result ≡ Err (ReportError.Serve ServeError.Net)) }
    ensures still { result ≢ Err (ReportError.Serve ServeError.Net)
        → N.faults net.new ≡ N.faults net.old }
    ensures unwritten { CountsFault O.faults report.old report.new (IsUnwritten result) }
{
    let mut serving = Serving::make(alloc, setup)?;
    let ended = run(alloc, setup, &mut serving, net);
    report_end(alloc, serving.units(), ended, report)
}
