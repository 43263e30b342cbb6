//! The demo: turns of both ends until the client is current.

ghost use Rattle.std.specs.Prelude.{◌≡◌, ◌≤◌, ◌<◌, ◌+◌, ◌++◌, ◌⊎◌, ℕ, List, length, OnOk};
ghost use Rattle.std.specs.Prelude.{OnErr, IfOk, IfErr, MatchBool, false};
ghost use Rattle.pitch_io.specs.Causes.{Rose};
ghost use Rattle.pitch_io.specs.Nets.{Call, Begin};
ghost use Rattle.pitch_io.specs.layers.Coming.{ListsCall};
ghost use Rattle.pitch_io.specs.declared.net.NetDone.TheVariants.{Done, Failed};
ghost use Rattle.pitch_model.specs.declared.status.Status.TheVariants.{Current};
ghost use Rattle.pitch_model.specs.Status.{status_of};
ghost use Rattle.feed_lines.specs.UnitLine.{unit_line};
ghost use Rattle.venue_end.specs.Came.{nothing_came};
ghost use Rattle.world_model.specs.Ends.{default_limits};
ghost use Rattle.world_model.specs.State.{State};
ghost use Rattle.net_edge.specs.declared.error.DemoError.TheVariants as errors;
ghost use Rattle.net_edge.specs.Breaking.{Breaks};
ghost use Rattle.net_edge.specs.Demo.{IsDemo, BreaksDemo};
ghost use Rattle.net_edge.specs.Due.{Setting, setting, demo_unit, call_room, hold_limit};
ghost use Rattle.net_edge.specs.Scene.{Scene, connected};
ghost use Rattle.net_edge.specs.layers.Ends.{Holds, no_ends};
ghost use Rattle.net_edge.specs.layers.Playing.{EndsRun, NetCounts, TurnBegins, calls_before};
ghost use Rattle.net_edge.specs.layers.Sending.{AreTotalsIfHonest, DoesDemo, SendsPieces};

use crate::error::DemoError;
use crate::shared_venue::SharedVenue;
use crate::stage::Stage;
use crate::venue::Venue;
use feed_lines::append_unit_line;
use pitch_fields::OutOfMemory;
use pitch_io::{LinkEnd, Net, NetDone};
use pitch_model::Status;
use pitch_text::DEFAULT_KEPT;
use shared_unit::{FixedRun, MakeError, Naming, Opened};
use std::alloc::Global;
use std::marker::Brand;
use std::sync::Wait;
use venue_end::VenueEnd;
use world_model::default_limits;
use world_model::ends::venue_setup;

// Room for the longest datagram.
fn room(alloc: Global) -> Result<Vec<u8>, OutOfMemory>
    ensures { IfOk result (λ bytes. length bytes.items ≡ call_room) }
{
    Ok(vec![in alloc; 0u8; 65535]?)
}

// The net is set up; this comes once, before a run.
#[tactic(auto, using(crate::proofs::Starting::done_well))]
fn begin<N: Net>(net: &mut N) -> Result<(), DemoError>
    ensures begun { OnOk result (ListsCall (N.calls net.old) (N.calls net.new) (Begin Done)) }
    ensures failed { IfErr result (λ error. (error ≡ errors.NetFault)
        × ListsCall (N.calls net.old) (N.calls net.new) (Begin Failed)) }
    ensures faults { NetCounts result (N.faults net.old) (N.faults net.new) }
{
    match net.begin() {
        NetDone::Done => Ok(()),
        NetDone::Failed => Err(DemoError::NetFault),
    }
}

// The net is set up, and both logins are put.
fn log_in<N: Net, V: Venue>(net: &mut N, stage: &mut Stage<V>) -> Result<(), DemoError>
    ensures begins { OnOk result ((s : Setting) → s.count ≤ 1000
        → Holds V.is stage.old connected → stage.old.ended ≡ no_ends → (now : Scene)
        × TurnBegins V.is s (calls_before (N.calls net.old)) (N.calls net.new) stage.new 1 now) }
    ensures broke { IfErr result (λ error. (s : Setting) → Holds V.is stage.old connected
        → BreaksDemo s (N.calls net.old) (N.calls net.new) error) }
    ensures faults { NetCounts result (N.faults net.old) (N.faults net.new) }
{
    begin(net)?;
    stage.put_waiting(net, LinkEnd::GrpClient)?;
    stage.put_waiting(net, LinkEnd::SpinClient)?;
    Ok(())
}

// Whether a run ends with this turn.
fn ends_with(turn: u32, count: u32, status: Status) -> bool
    requires { count ≤ 1000 }
    ensures { MatchBool result
        ((count < turn) × ((status ≡ Current count) ⊎ (turn ≡ count + 200)))
        ((count < turn → status ≡ Current count → ⊥) × (turn ≡ count + 200 → ⊥)) }
{
    if turn == count + 200 {
        return true;
    }
    match status {
        Status::Current { n } => turn > count && n == count,
        Status::Silent | Status::Behind { .. } => false,
    }
}

// The turns of a run, until it ends.
fn run<N: Net, V: Venue>(
    net: &mut N,
    stage: &mut Stage<V>,
    number: u64,
    count: u32,
    into: &mut [u8],
) -> Result<(), DemoError>
    requires many { (1 ≤ count) × (count ≤ 1000) }
    requires room { length into.old ≡ call_room }
    ensures ran { OnOk result ((base : List Call) (now : Scene)
        → TurnBegins V.is (setting number count) base (N.calls net.old) stage.old 1 now
        → EndsRun V.is (setting number count) base (N.calls net.new) stage.new) }
    ensures broke { IfErr result (λ error. (base : List Call) (now : Scene)
        → TurnBegins V.is (setting number count) base (N.calls net.old) stage.old 1 now
        → Breaks (setting number count) base (N.calls net.new) error) }
    ensures faults { NetCounts result (N.faults net.old) (N.faults net.new) }
{
    let mut turn = 1;
    stage.turn(net, number, count, turn, into)?;
    'turns: while !ends_with(turn, count, stage.status()) {
        turn += 1;
        stage.turn(net, number, count, turn, into)?;
    }
    Ok(())
}

// Appends the line of the unit's client.
fn append_end<V: Venue>(stage: &Stage<V>, out: &mut Vec<u8>) -> Result<(), OutOfMemory>
    ensures line { OnOk result ((w : State) → Holds V.is stage.now w
        → (orders : ℕ) × (quantity : ℕ) × AreTotalsIfHonest w orders quantity
        × (out.new.items ≡ out.old.items
        ++ unit_line demo_unit (status_of hold_limit w.client.heard) orders quantity)) }
    ensures err { OnErr result (out.new.items ≡ out.old.items) }
{
    let book = stage.book();
    append_unit_line(1, stage.status(), book.len(), book.shares(), out)
}

// A run of a stage from the start, and the unit's line.
fn play<N: Net, V: Venue>(
    net: &mut N,
    stage: &mut Stage<V>,
    number: u64,
    count: u32,
    into: &mut [u8],
    out: &mut Vec<u8>,
) -> Result<(), DemoError>
    requires many { (1 ≤ count) × (count ≤ 1000) }
    requires room { length into.old ≡ call_room }
    requires holds { Holds V.is stage.old connected }
    requires ended { stage.old.ended ≡ no_ends }
    ensures played { OnOk result (IsDemo (setting number count) (N.calls net.old) (N.calls net.new)
        out.old.items out.new.items) }
    ensures broke { IfErr result (λ error.
        BreaksDemo (setting number count) (N.calls net.old) (N.calls net.new) error) }
    ensures faults { NetCounts result (N.faults net.old) (N.faults net.new) }
    ensures err { OnErr result (out.new.items ≡ out.old.items) }
{
    log_in(net, stage)?;
    run(net, stage, number, count, into)?;
    stage.accepted_are_messages();
    append_end(stage, out)?;
    Ok(())
}

// The same, with room for what comes.
#[tactic(auto, using(crate::proofs::Ending::demo_unbegun))]
fn play_in<N: Net, V: Venue>(
    alloc: Global,
    net: &mut N,
    stage: &mut Stage<V>,
    number: u64,
    count: u32,
    out: &mut Vec<u8>,
) -> Result<(), DemoError>
    requires many { (1 ≤ count) × (count ≤ 1000) }
    requires holds { Holds V.is stage.old connected }
    requires ended { stage.old.ended ≡ no_ends }
    ensures { DoesDemo (setting number count) result (N.calls net.old) (N.calls net.new)
        (N.faults net.old) (N.faults net.new) out.old.items out.new.items }
{
    let mut into = room(alloc)?;
    play(net, stage, number, count, &mut into, out)
}

// A demo at this end of the venue, to which nothing came.
#[tactic(auto, using(crate::proofs::Ending::demo_unbegun))]
fn demo_at<N: Net, V: Venue>(
    alloc: Global,
    net: &mut N,
    venue: V,
    number: u64,
    count: u32,
    out: &mut Vec<u8>,
) -> Result<(), DemoError>
    requires many { (1 ≤ count) × (count ≤ 1000) }
    requires new { V.is venue nothing_came }
    ensures { DoesDemo (setting number count) result (N.calls net.old) (N.calls net.new)
        (N.faults net.old) (N.faults net.new) out.old.items out.new.items }
{
    let mut stage = Stage::make(alloc, venue)?;
    let played = play_in(alloc, net, &mut stage, number, count, out);
    drop(stage);
    played
}

/// Does what [`demo`] does, with servers that answer from a gap store and a shelf of images. It is
/// what `demo` does where a shared unit has no place for a server.
pub fn demo_plain<N: Net>(
    alloc: Global,
    net: &mut N,
    number: u64,
    count: u32,
    out: &mut Vec<u8>,
) -> Result<(), DemoError>
    requires { (1 ≤ count) × (count ≤ 1000) }
    ensures does { DoesDemo (setting number count) result (N.calls net.old) (N.calls net.new)
        (N.faults net.old) (N.faults net.new) out.old.items out.new.items }
    ensures pieces { SendsPieces (setting number count) (N.calls net.old) (N.calls net.new) }
{
    let venue = VenueEnd::make(alloc, &venue_setup(1, default_limits()))?;
    demo_at(alloc, net, venue, number, count, out)
}

// A demo whose servers answer from the pair that was opened, under its name.
fn demo_of<J: Naming, R: FixedRun, W: Wait, N: Net>(
    rt: &W,
    alloc: Global,
    opened: Opened<R>,
    net: &mut N,
    number: u64,
    count: u32,
    out: &mut Vec<u8>,
) -> Result<(), DemoError>
    requires book { opened.seen.book ≡ J.book }
    requires kept { opened.kept ≡ J.kept }
    requires demo { J.kept ≡ default_limits.kept }
    requires free { R.fixed ≡ false }
    requires servers { opened.servers ≡ 2 }
    requires many { (1 ≤ count) × (count ≤ 1000) }
    ensures { DoesDemo (setting number count) result (N.calls net.old) (N.calls net.new)
        (N.faults net.old) (N.faults net.new) out.old.items out.new.items }
{
    match SharedVenue::<J, R, &W>::open(rt, alloc, opened) {
        Ok(venue) => demo_at(alloc, net, venue, number, count, out),
        Err(MakeError::NoPlace) => demo_plain(alloc, net, number, count, out),
        Err(MakeError::OutOfMemory) => Err(DemoError::OutOfMemory),
    }
}

// Opens a pair with two servers, whose run fixes no messages.
#[tactic(auto, using(crate::proofs::Ending::demo_unbegun))]
fn demo_opened<R: FixedRun, W: Wait, N: Net>(
    rt: &W,
    alloc: Global,
    net: &mut N,
    number: u64,
    count: u32,
    out: &mut Vec<u8>,
) -> Result<(), DemoError>
    requires free { R.fixed ≡ false }
    requires many { (1 ≤ count) × (count ≤ 1000) }
    ensures { DoesDemo (setting number count) result (N.calls net.old) (N.calls net.new)
        (N.faults net.old) (N.faults net.new) out.old.items out.new.items }
{
    let opened: Opened<R> = Opened::make(alloc, 1, DEFAULT_KEPT, 2)?;
    demo_of::<Brand, R, W, N>(rt, alloc, opened, net, number, count, out)
}

/// Runs both ends of unit 1 over a net, and appends the unit's line to `out`: the status of its
/// client, and the orders and the shares of its book. `out` is as before after an error.
///
/// The venue accepts `count` messages of the plan that `number` makes, 1 to 1,000, one in each
/// turn; their copies are lost on lines A and B by the rule of losses. Every tenth turn has a
/// heartbeat and a tick. In each turn the servers are fed what comes to them, and the client hears
/// what comes on its lines and connections. The run ends with the first turn after the last message
/// at whose end the client is current, and at the latest 200 turns after it.
///
/// Where the net lists its calls, they are those of such a run, whatever the net does with what it
/// is given. Where it carries that, in whatever order and with whatever losses, the orders and the
/// shares are those that the venue's messages up to the client's reach leave.
///
/// The servers answer from a shared unit, each from all that its writer did; where it has no place
/// for a server, from a plain store and shelf.
pub fn demo<W: Wait, N: Net>(
    rt: &W,
    alloc: Global,
    net: &mut N,
    number: u64,
    count: u32,
    out: &mut Vec<u8>,
) -> Result<(), DemoError>
    requires { (1 ≤ count) × (count ≤ 1000) }
    ensures ran { OnOk result (IsDemo (setting number count)
        (N.calls net.old) (N.calls net.new) out.old.items out.new.items) }
    // Also before an error the calls are those of a run.
    ensures broke { IfErr result (λ error.
        BreaksDemo (setting number count) (N.calls net.old) (N.calls net.new) error) }
    // Whatever the answer, what was sent has the venue's messages.
    ensures pieces { SendsPieces (setting number count) (N.calls net.old) (N.calls net.new) }
    // The net failed only where its count of faults rose.
    ensures fault { IfErr result (λ error.
        error ≡ errors.NetFault → Rose (N.faults net.old) (N.faults net.new)) }
    ensures later { N.faults net.old ≤ N.faults net.new }
    ensures still { OnOk result (N.faults net.new ≡ N.faults net.old) }
    ensures err { OnErr result (out.new.items ≡ out.old.items) }
{
    demo_opened::<Brand, W, N>(rt, alloc, net, number, count, out)
}
