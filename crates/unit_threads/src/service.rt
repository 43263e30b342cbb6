//! The service.

ghost use Rattle.std.specs.Prelude.{◌≡◌, ◌++◌, true, false, map, IfOk, IfSome, IfNone, OnOk};
ghost use Rattle.std.specs.List.{AllByRecursion};
ghost use mathlib.Core.List.{IsPrefix};
ghost use Rattle.unit_packets.specs.Packing.{bytes_in, packed};
ghost use Rattle.gap_store.specs.Look.{slice_of};
ghost use Rattle.pitch_model.specs.History.{adds};
ghost use Rattle.pitch_model.specs.Image.{image};
ghost use Rattle.heard_items.specs.Datagrams.{IsPiece};
ghost use Rattle.spin_server.specs.Served.{is_served};
ghost use Rattle.shared_unit.specs.layers.Histories.{IsLegal, kept_at, served_at};
ghost use Rattle.venue_core.specs.Plan.{plan};
ghost use Rattle.drill_client.specs.declared.words.Reply.TheVariants.{Again};
ghost use Rattle.unit_threads.specs.layers.Publishing.{HasAll};
ghost use Rattle.drill_client.specs.layers.Answered.{keeps_range};
ghost use Rattle.unit_threads.specs.layers.Replying.{replies_to_gap, replies_to_spin, replies_to};
ghost use Rattle.unit_threads.specs.layers.Replying.{replies_by, Includes};

use crate::course::Course;
use crate::ends::{Request, ServiceEnds};
use crate::outbox::Outbox;
use crossbeam_channel::Receiver;
use drill_client::{Datagram, DrillRun, Image, Reply};
use gap_store::{Found, GapLookup};
use pitch_fields::OutOfMemory;
use pitch_io::{Gate, Role};
use pitch_messages::{ByteList, RawList};
use pitch_model::Ask;
use shared_unit::{FixedRun, Naming, Server};
use spin_server::Imaged;
use std::alloc::Global;
use std::sync::Wait;
use unit_packets::DatagramList;

// The datagrams of a range, where all of it is kept.
fn range<J: Naming, R: DrillRun + FixedRun>(
    alloc: Global,
    course: &Course<R>,
    server: &mut Server<J, R>,
    first: u32,
    count: u16,
) -> Result<Option<DatagramList>, OutOfMemory>
    // None is handed out just where not all of the range is kept.
    ensures none { IfOk result (λ found.
        IfNone found (keeps_range (kept_at J.kept server.new.history) first count ≡ false)) }
    ensures kept { IfOk result (λ found.
        IfSome found (λ _. keeps_range (kept_at J.kept server.new.history) first count ≡ true)) }
    ensures datagrams { IfOk result (λ found. IfSome found (λ list. bytes_in list.items ≡ packed
        course.now.unit first (slice_of (kept_at J.kept server.new.history) first count))) }
    ensures pieces { IfOk result (λ found. IfSome found (λ list.
        AllByRecursion (IsPiece (plan R.number R.unit R.count) R.unit) (bytes_in list.items))) }
{
    if first == 0 {
        return Ok(None);
    }
    if count == 0 {
        return Ok(None);
    }
    let mut out = DatagramList::make(alloc);
    let found = server.pack(alloc, course.unit, first, count, &mut out)?;
    let _seen = server.seen();
    match found {
        Found::Kept => Ok(Some(out)),
        Found::Ahead { last: _ } => Ok(None),
        Found::NotKept { first: _ } => Ok(None),
    }
}

// The image through a sequence, where it is served.
fn image<J: Naming, R: DrillRun + FixedRun>(
    alloc: Global,
    course: &Course<R>,
    server: &mut Server<J, R>,
    sequence: u32,
) -> Result<Option<Image<R>>, OutOfMemory>
    ensures sequence { IfOk result (λ served. IfSome served (λ image. image.sequence ≡ sequence)) }
    // None is handed out just where the image is not served.
    ensures none { IfOk result
        (λ served. IfNone served (is_served (served_at server.new.history) sequence ≡ false)) }
    ensures served { IfOk result
        (λ served. IfSome served (λ _. is_served (served_at server.new.history) sequence ≡ true)) }
    ensures raws { IfOk result (λ served.
        IfSome served (λ out. out.raws ≡ image (served_at server.new.history).messages sequence)) }
    ensures orders { IfOk result (λ served. IfSome served
        (λ out. out.orders ≡ adds (image (served_at server.new.history).messages sequence))) }
    ensures later { IsPrefix server.old.history server.new.history }
    ensures run { OnOk result (IsLegal R.fixed R.plan server.new.history) }
{
    let mut raws = RawList::make(alloc);
    match Server::image(server, sequence, &mut raws)? {
        Imaged::Image { orders } => Ok(Some(Image::make(sequence, orders, raws))),
        Imaged::NotAdvertised => Ok(None),
    }
}

/// The image of all messages, of a server that was told of all.
pub(crate) fn image_of_all<J: Naming, R: DrillRun + FixedRun>(
    alloc: Global,
    course: &Course<R>,
    server: &mut Server<J, R>,
) -> Result<Image<R>, OutOfMemory>
    requires { HasAll server.old.history course.now.number course.now.unit course.now.count }
    ensures { IfOk result (λ image. image.sequence ≡ course.now.count) }
{
    match image(alloc, course, server, course.count)? {
        Some(image) => Ok(image),
        None => unreachable!(),
    }
}

// Sends datagrams again, each with memory for just its bytes.
fn send_again<R: DrillRun, W: Wait>(
    rt: &W,
    alloc: Global,
    datagrams: &[ByteList],
    replies: &mut Outbox<Reply<R>>,
) -> Result<(), OutOfMemory>
    requires { AllByRecursion
        (IsPiece (plan R.number R.unit R.count) R.unit) (bytes_in datagrams.now) }
    ensures { OnOk result (replies.new ≡ replies.old ++ map Again (bytes_in datagrams.now)) }
{
    'copied: for datagram in datagrams {
        let copy = Datagram::of_bytes(alloc, datagram.bytes())?;
        replies.send(rt, Reply::Again(copy))?;
    }
    Ok(())
}

// Answers a gap ask: with the range where all of it is kept.
fn answer_gap<J: Naming, R: DrillRun + FixedRun, W: Wait>(
    rt: &W,
    alloc: Global,
    course: &Course<R>,
    server: &mut Server<J, R>,
    first: u32,
    count: u16,
    replies: &mut Outbox<Reply<R>>,
) -> Result<(), OutOfMemory>
    ensures { OnOk result (replies.new ≡ replies.old
        ++ replies_to_gap (kept_at J.kept server.new.history) course.now.unit first count) }
{
    match range(alloc, course, server, first, count)? {
        None => replies.send(rt, Reply::Gap { accepted: false }),
        Some(datagrams) => {
            replies.send(rt, Reply::Gap { accepted: true })?;
            send_again(rt, alloc, datagrams.as_slice(), replies)
        }
    }
}

// Answers a spin ask: with the image where it is served.
fn answer_spin<J: Naming, R: DrillRun + FixedRun, W: Wait>(
    rt: &W,
    alloc: Global,
    course: &Course<R>,
    server: &mut Server<J, R>,
    sequence: u32,
    replies: &mut Outbox<Reply<R>>,
) -> Result<(), OutOfMemory>
    ensures { OnOk result
        (replies.new ≡ replies.old ++ replies_to_spin (served_at server.new.history) sequence) }
{
    match image(alloc, course, server, sequence)? {
        Some(image) => replies.send(rt, Reply::Spin(image)),
        None => replies.send(rt, Reply::NoSpin { sequence }),
    }
}

// Answers an ask.
fn answer<J: Naming, R: DrillRun + FixedRun, W: Wait>(
    rt: &W,
    alloc: Global,
    course: &Course<R>,
    server: &mut Server<J, R>,
    ask: Ask,
    replies: &mut Outbox<Reply<R>>,
) -> Result<(), OutOfMemory>
    // The replies are right at what the server has seen then.
    ensures { OnOk result
        (replies.new ≡ replies.old ++ replies_to J.kept course.now.unit server.new.history ask) }
{
    match ask {
        Ask::Gap { first, count } => {
            answer_gap(rt, alloc, course, server, first, count, replies)
        }
        Ask::Spin { sequence } => answer_spin(rt, alloc, course, server, sequence, replies),
    }
}

// Hears what is told, or answers what is asked.
fn take_request<J: Naming, R: DrillRun + FixedRun, W: Wait, G: Gate>(
    rt: &W,
    alloc: Global,
    gate: &G,
    course: &Course<R>,
    step: &mut u32,
    server: &mut Server<J, R>,
    request: Request<J, R>,
    replies: &mut Outbox<Reply<R>>,
) -> Result<(), OutOfMemory>
    // An ask is answered, and what is told is seen.
    ensures replies { OnOk result (replies.new
        ≡ replies.old ++ replies_by J.kept course.now.unit server.new.history request) }
    ensures told { OnOk result (Includes server.new.history request) }
{
    match request {
        Request::Told(told) => {
            server.hear_told(told);
            Ok(())
        }
        Request::Asked(ask) => {
            *step = step.saturating_add(1);
            let work = course.work(Role::Service, *step);
            gate.before(work);
            answer(rt, alloc, course, server, ask, replies)?;
            gate.after(work);
            Ok(())
        }
    }
}

// Takes all requests, until none can come.
fn serve_all<J: Naming, R: DrillRun + FixedRun, W: Wait, G: Gate>(
    rt: &W,
    alloc: Global,
    gate: &G,
    course: &Course<R>,
    server: &mut Server<J, R>,
    requests: &Receiver<Request<J, R>>,
    replies: &mut Outbox<Reply<R>>,
) -> Result<(), OutOfMemory> {
    let mut step = 0u32;
    'requests: for _ in rt.forever() {
        match requests.recv(rt) {
            Ok(request) => {
                take_request(rt, alloc, gate, course, &mut step, server, request, replies)?;
            }
            Err(_) => break,
        }
    }
    Ok(())
}

/// Hears what is told and answers what is asked, until neither the publisher nor the client is
/// left. Hands the server back.
pub(crate) fn serve<J: Naming, R: DrillRun + FixedRun, W: Wait, G: Gate>(
    rt: &W,
    alloc: Global,
    gate: &G,
    course: &Course<R>,
    mut server: Server<J, R>,
    ends: ServiceEnds<J, R>,
) -> Result<Server<J, R>, OutOfMemory> {
    let ServiceEnds { requests, replies } = ends;
    let mut replies = Outbox::make(alloc, replies);
    let served = serve_all(
        rt,
        alloc,
        gate,
        course,
        &mut server,
        &requests,
        &mut replies,
    );
    drop(requests);
    drop(replies);
    match served {
        Ok(()) => Ok(server),
        Err(error) => {
            drop(server);
            Err(error)
        }
    }
}
