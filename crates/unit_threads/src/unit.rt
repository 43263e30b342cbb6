//! One unit's drill.

ghost use Rattle.std.specs.Prelude.{◌≡◌, ◌≤◌, ◌*◌, [], length, IfOk};
ghost use Rattle.venue_core.specs.Plan.{plan};
ghost use Rattle.drill_client.specs.layers.Ending.{IsAtEnd};
ghost use Rattle.drill_client.specs.layers.Following.{FollowsOn};
ghost use Rattle.drill_client.specs.DrillText.{drill_line};
ghost use Rattle.drill_client.specs.layers.Limits.{most_drilled, drill_kept};
ghost use Rattle.unit_threads.specs.layers.Publishing.{HasAccepted, HasAdvertised, IsPlanned};

use crate::client::follow;
use crate::closing::close;
use crate::course::Course;
use crate::ends::{ClientEnds, Ends, ServiceEnds};
use crate::publisher::publish;
use crate::service::serve;
use client_core::UnitClient;
use drill_client::{DrillRun, KEPT, append_end, drill_plain};
use pitch_fields::OutOfMemory;
use pitch_io::Gate;
use shared_unit::{FixedRun, LeftRightPlaces, MakeError, Naming, Opened, Server, Writer, make};
use std::alloc::Global;
use std::marker::Brand;
use std::sync::Wait;
use std::thread::{Threads, join};
use std::time::Clock;

// The line of a client at the end of its unit.
fn line_of_client<R: DrillRun + FixedRun>(
    alloc: Global,
    course: &Course<R>,
    client: &UnitClient,
) -> Result<Vec<u8>, OutOfMemory>
    requires { IsAtEnd client.now drill_kept (plan R.number R.unit R.count) }
    ensures { IfOk result (λ line.
        line.items ≡ drill_line course.now.number course.now.unit course.now.count) }
{
    let mut out = Vec::new(alloc);
    append_end(client, course.unit, &mut out)?;
    Ok(out)
}

// The line of a unit that is played in turns.
fn plain_line<R: DrillRun + FixedRun>(
    alloc: Global,
    course: &Course<R>,
) -> Result<Vec<u8>, OutOfMemory>
    ensures { IfOk result (λ line.
        line.items ≡ drill_line course.now.number course.now.unit course.now.count) }
{
    let mut out = Vec::new(alloc);
    drill_plain(alloc, course.number, course.unit, course.count, &mut out)?;
    Ok(out)
}

// The client and the service run beside one another until both have ended. Where no thread can be
// made, `join` calls its first closure last: so the client comes first then, and the service after
// it, which ends only once the client has.
fn run_receivers<
    J: Naming + Send + Sync,
    R: DrillRun + FixedRun + Send + Sync,
    W: Threads + Wait + Clock + Sync,
    G: Gate + Sync,
>(
    rt: &W,
    alloc: Global,
    gate: &G,
    course: &Course<R>,
    server: Server<J, R>,
    client: ClientEnds<J, R>,
    service: ServiceEnds<J, R>,
) -> (
    Result<UnitClient, OutOfMemory>,
    Result<Server<J, R>, OutOfMemory>,
)
    ensures { IfOk result.0 (λ client. FollowsOn client drill_kept (plan R.number R.unit R.count)) }
{
    let (served, followed) = join(
        rt,
        move || serve(rt, alloc, gate, course, server, service),
        move || follow(rt, alloc, gate, course, client),
    );
    (followed, served)
}

// Where all three parties ended well, the client takes what it lacks.
fn finish<J: Naming, R: DrillRun + FixedRun, H: Wait + Drop>(
    alloc: Global,
    course: &Course<R>,
    published: Result<Writer<J, R, H>, OutOfMemory>,
    served: Result<Server<J, R>, OutOfMemory>,
    followed: Result<UnitClient, OutOfMemory>,
) -> Result<UnitClient, OutOfMemory>
    requires accepted { IfOk published (λ writer. HasAccepted
        writer.history course.now.number course.now.unit course.now.count (2 * course.now.count)) }
    requires advertised { IfOk published (λ writer. HasAdvertised writer.history course.now.count) }
    requires follows { IfOk followed
        (λ client. FollowsOn client drill_kept (plan R.number R.unit R.count)) }
    ensures { IfOk result (λ client. IsAtEnd client drill_kept (plan R.number R.unit R.count)) }
{
    match (published, served, followed) {
        (Ok(writer), Ok(server), Ok(client)) => finish_well(alloc, course, writer, server, client),
        (published, served, followed) => {
            drop(published);
            drop(served);
            drop(followed);
            Err(OutOfMemory)
        }
    }
}

// The client takes what it lacks. Values are dropped by calls, which are cheaper to prove than a
// drop at each return.
fn finish_well<J: Naming, R: DrillRun + FixedRun, H: Wait + Drop>(
    alloc: Global,
    course: &Course<R>,
    mut writer: Writer<J, R, H>,
    mut server: Server<J, R>,
    mut client: UnitClient,
) -> Result<UnitClient, OutOfMemory>
    requires accepted { HasAccepted writer.history
        course.now.number course.now.unit course.now.count (2 * course.now.count) }
    requires advertised { HasAdvertised writer.history course.now.count }
    requires follows { FollowsOn client drill_kept (plan R.number R.unit R.count) }
    ensures { IfOk result (λ client. IsAtEnd client drill_kept (plan R.number R.unit R.count)) }
{
    let closed = close(alloc, course, &mut writer, &mut server, &mut client);
    drop(writer);
    drop(server);
    match closed {
        Ok(()) => Ok(client),
        Err(error) => {
            drop(client);
            Err(error)
        }
    }
}

// The three parties run beside one another until all have ended, and the client takes what it
// lacks then.
fn run_connected<
    J: Naming + Send + Sync,
    R: DrillRun + FixedRun + Send + Sync,
    W: Threads + Wait + Clock + Sync,
    G: Gate + Sync,
>(
    rt: &W,
    alloc: Global,
    gate: &G,
    course: &Course<R>,
    writer: Writer<J, R, &W>,
    server: Server<J, R>,
    ends: Ends<J, R>,
) -> Result<UnitClient, OutOfMemory>
    requires { writer.history ≡ [] }
    ensures { IfOk result (λ client. IsAtEnd client drill_kept (plan R.number R.unit R.count)) }
{
    let Ends {
        publisher,
        client,
        service,
    } = ends;
    // where no thread can be made, the publisher comes first
    let ((followed, served), published) = join(
        rt,
        move || -> (
            Result<UnitClient, OutOfMemory>,
            Result<Server<J, R>, OutOfMemory>,
        )
            ensures { IfOk result.0
                (λ client. FollowsOn client drill_kept (plan R.number R.unit R.count)) }
        { run_receivers(rt, alloc, gate, course, server, client, service) },
        move || publish(rt, alloc, gate, course, writer, publisher),
    );
    finish(alloc, course, published, served, followed)
}

// The three parties, over new channels.
fn run_parties<
    J: Naming + Send + Sync,
    R: DrillRun + FixedRun + Send + Sync,
    W: Threads + Wait + Clock + Sync,
    G: Gate + Sync,
>(
    rt: &W,
    alloc: Global,
    gate: &G,
    course: &Course<R>,
    writer: Writer<J, R, &W>,
    server: Server<J, R>,
) -> Result<UnitClient, OutOfMemory>
    requires { writer.history ≡ [] }
    ensures { IfOk result (λ client. IsAtEnd client drill_kept (plan R.number R.unit R.count)) }
{
    match Ends::<J, R>::make(alloc) {
        Ok(ends) => run_connected(rt, alloc, gate, course, writer, server, ends),
        Err(error) => {
            drop(writer);
            drop(server);
            Err(error)
        }
    }
}

// The server of a unit that has one.
fn only<J: Naming, R: FixedRun>(mut servers: Vec<Server<J, R>>) -> Server<J, R>
    requires { length servers.items ≡ 1 }
{
    let Some(server) = servers.pop() else {
        unreachable!();
    };
    drop(servers);
    server
}

// The client's line, of the parties run with a writer and its server.
fn line_of_parties<
    J: Naming + Send + Sync,
    R: DrillRun + FixedRun + Send + Sync,
    W: Threads + Wait + Clock + Sync,
    G: Gate + Sync,
>(
    rt: &W,
    alloc: Global,
    gate: &G,
    course: &Course<R>,
    writer: Writer<J, R, &W>,
    server: Server<J, R>,
) -> Result<Vec<u8>, OutOfMemory>
    requires { writer.history ≡ [] }
    ensures { IfOk result (λ line.
        line.items ≡ drill_line course.now.number course.now.unit course.now.count) }
{
    let client = run_parties(rt, alloc, gate, course, writer, server)?;
    let line = line_of_client(alloc, course, &client);
    drop(client);
    line
}

// The line of a unit that is run with threads, or where there is no place for a server in turns.
fn run_unit<
    J: Naming + Send + Sync,
    R: DrillRun + FixedRun + Send + Sync,
    W: Threads + Wait + Clock + Sync,
    G: Gate + Sync,
>(
    rt: &W,
    alloc: Global,
    gate: &G,
    course: Course<R>,
    opened: Opened<R>,
) -> Result<Vec<u8>, OutOfMemory>
    requires book { opened.seen.book ≡ J.book }
    requires kept { opened.kept ≡ J.kept }
    // What a service can hand out again are the last so many messages.
    requires drill { J.kept ≡ drill_kept }
    requires servers { opened.servers ≡ 1 }
    ensures { IfOk result (λ line. line.items ≡ drill_line course.number course.unit course.count) }
{
    let mut places = LeftRightPlaces::make();
    match make::<J, R, &W, LeftRightPlaces>(rt, alloc, opened, &mut places) {
        Ok((writer, servers)) => {
            line_of_parties(rt, alloc, gate, &course, writer, only(servers))
        }
        Err(MakeError::OutOfMemory) => Err(OutOfMemory),
        Err(MakeError::NoPlace) => plain_line(alloc, &course),
    }
}

// Runs a unit under a fresh name for its pair of copies.
fn open_unit<
    R: DrillRun + FixedRun + Send + Sync,
    W: Threads + Wait + Clock + Sync,
    G: Gate + Sync,
>(
    rt: &W,
    alloc: Global,
    gate: &G,
    number: u64,
    unit: u8,
    count: u32,
) -> Result<Vec<u8>, OutOfMemory>
    requires number { number ≡ R.number }
    requires unit { unit ≡ R.unit }
    requires count { count ≡ R.count }
    requires most { (1 ≤ count) × (count ≤ most_drilled) }
    requires planned { IsPlanned R.fixed R.plan number unit count }
    ensures { IfOk result (λ line. line.items ≡ drill_line number unit count) }
{
    let opened: Opened<R> = Opened::make(alloc, unit, KEPT, 1)?;
    let course: Course<R> = Course::make(number, unit, count);
    run_unit::<Brand, R, W, G>(rt, alloc, gate, course, opened)
}

/// The line of a unit, played under a fresh name for its run.
pub(crate) fn unit_text<W: Threads + Wait + Clock + Sync, G: Gate + Sync>(
    rt: &W,
    alloc: Global,
    gate: &G,
    number: u64,
    unit: u8,
    count: u32,
) -> Result<Vec<u8>, OutOfMemory>
    requires { (1 ≤ count) × (count ≤ most_drilled) }
    ensures { IfOk result (λ line. line.items ≡ drill_line number unit count) }
{
    open_unit::<Brand, W, G>(rt, alloc, gate, number, unit, count)
}
