//! A server asked in a thread beside its writer's.
ghost use Rattle.std.specs.Prelude.{◌≡◌, ◌≤◌, ◌<◌, ◌+◌, ◌^◌, [], false, length, OnOk};

use crate::servers::{accept_one, accept_plan, answers_first, finds, hears, make_one};
use crossbeam_channel::{Receiver, Sender, unbounded};
use shared_unit::{FixedRun, Naming, Opened, Server, Told, Writer};
use std::alloc::Global;
use std::marker::Brand;
use std::process::Abort;
use std::sync::Wait;
use std::thread::{Threads, join};
use venue_core::VenueError;

#[test]
fn a_server_that_is_told_nothing_answers(rt: HostRuntime) {
    start_untold::<Brand, _>(&rt);
}

// Picks the run, which fixes nothing.
fn start_untold<R: FixedRun + Send + Sync, W: Threads + Wait + Abort + AllocGlobal + Sync>(rt: &W)
    requires free { R.fixed ≡ false }
{
    let opened: Opened<R> = Opened::make(rt.alloc(), 1, 4096, 1).expect(rt, "memory");
    play_untold::<Brand, R, W>(rt, opened);
}

fn play_untold<
    J: Naming + Send + Sync,
    R: FixedRun + Send + Sync,
    W: Threads + Wait + Abort + AllocGlobal + Sync,
>(rt: &W, opened: Opened<R>)
    requires book { opened.seen.book ≡ J.book }
    requires kept { opened.kept ≡ J.kept }
    requires free { R.fixed ≡ false }
{
    let (writer, server) = make_one::<J, R, W>(rt, opened);
    let alloc = rt.alloc();
    let ((writer, accepted), wrong) = join(
        rt,
        move || accept_first(writer),
        move || ask_untold(alloc, server),
    );
    drop(writer);
    assert!(rt; accepted && wrong == 0);
}

// Accepts the plan's first three commands, and says whether none was refused.
fn accept_first<J: Naming, R: FixedRun, H: Wait + Drop>(
    mut writer: Writer<J, R, H>,
) -> (Writer<J, R, H>, bool)
    requires free { R.fixed ≡ false }
    requires new { writer.history ≡ [] }
{
    let accepted = accept_plan(&mut writer, 3).is_ok();
    (writer, accepted)
}

// Asks 1,000 times without being told, and counts the answers that are wrong.
fn ask_untold<J: Naming, R: FixedRun>(alloc: Global, mut server: Server<J, R>) -> u32 {
    let mut wrong = 0u32;
    for _ in 0..1000u32 {
        if !answers_first(alloc, &mut server) {
            wrong = wrong.saturating_add(1);
        }
    }
    wrong
}

#[test]
fn a_server_that_is_told_answers(rt: HostRuntime) {
    start_told::<Brand, _>(&rt);
}

// Picks the run, which fixes nothing.
fn start_told<R: FixedRun + Send + Sync, W: Threads + Wait + Abort + AllocGlobal + Sync>(rt: &W)
    requires free { R.fixed ≡ false }
{
    let opened: Opened<R> = Opened::make(rt.alloc(), 1, 4096, 1).expect(rt, "memory");
    play_told::<Brand, R, W>(rt, opened);
}

fn play_told<
    J: Naming + Send + Sync,
    R: FixedRun + Send + Sync,
    W: Threads + Wait + Abort + AllocGlobal + Sync,
>(rt: &W, opened: Opened<R>)
    requires book { opened.seen.book ≡ J.book }
    requires kept { opened.kept ≡ J.kept }
    requires free { R.fixed ≡ false }
{
    let (to, from) = unbounded(rt.alloc()).expect(rt, "memory");
    let (writer, server) = make_one::<J, R, W>(rt, opened);
    assert!(rt; talk(rt, writer, server, to, from));
}

// The writer in a thread, and the server in another, which is told.
fn talk<J: Naming + Send + Sync, R: FixedRun + Send + Sync, W: Threads + Wait + AllocGlobal + Sync>(
    rt: &W,
    writer: Writer<J, R, &W>,
    server: Server<J, R>,
    to: Sender<Told<J, R>>,
    from: Receiver<Told<J, R>>,
) -> bool
    requires free { R.fixed ≡ false }
    requires new { writer.history ≡ [] }
{
    let ((mut writer, published), (mut server, wrong)) = join(
        rt,
        move || publish(rt, writer, to),
        move || serve(rt, server, from),
    );
    let heard = has_heard(&mut writer, &mut server);
    drop(writer);
    drop(server);
    published && wrong == 0 && heard
}

// Whether a server has seen all 101 operations once it was told of them, and finds the messages.
fn has_heard<J: Naming, R: FixedRun, H: Wait + Drop>(
    writer: &mut Writer<J, R, H>,
    server: &mut Server<J, R>,
) -> bool {
    hears(writer, server, 101) && finds(server, 100)
}

// Sends what is told. Where nobody hears it, it is let go.
fn send_told<J: Naming, R: FixedRun, W: Wait>(rt: &W, to: &Sender<Told<J, R>>, told: Told<J, R>) {
    let _ = to.send(rt, told);
}

// Tells of what was done.
fn tell_of<J: Naming, R: FixedRun, H: Wait + Drop, W: Wait>(
    rt: &W,
    writer: &mut Writer<J, R, H>,
    to: &Sender<Told<J, R>>,
)
    ensures { writer.new ≡ writer.old }
{
    send_told(rt, to, writer.tell());
}

// Accepts a command of the plan, and tells of it.
fn publish_one<J: Naming, R: FixedRun, H: Wait + Drop, W: Wait>(
    rt: &W,
    writer: &mut Writer<J, R, H>,
    index: u32,
    to: &Sender<Told<J, R>>,
) -> Result<(), VenueError>
    requires index { 1 ≤ index }
    requires free { R.fixed ≡ false }
    requires few { length writer.old.history < 2 ^ 63 }
    ensures { OnOk result (length writer.new.history ≡ length writer.old.history + 1) }
{
    accept_one(writer, index)?;
    tell_of(rt, writer, to);
    Ok(())
}

// Accepts the plan's first 100 commands, advertises, and tells of each.
fn publish_all<J: Naming, R: FixedRun, H: Wait + Drop, W: Wait>(
    rt: &W,
    writer: &mut Writer<J, R, H>,
    to: &Sender<Told<J, R>>,
) -> Result<(), VenueError>
    requires free { R.fixed ≡ false }
    requires new { writer.old.history ≡ [] }
{
    'commands: for index in 0..100u32 {
        publish_one(rt, writer, index + 1, to)?;
    }
    writer.advertise()?;
    tell_of(rt, writer, to);
    Ok(())
}

// Publishes all, and says whether nothing was refused. Nothing more is told then.
fn publish<J: Naming, R: FixedRun, H: Wait + Drop, W: Wait>(
    rt: &W,
    mut writer: Writer<J, R, H>,
    to: Sender<Told<J, R>>,
) -> (Writer<J, R, H>, bool)
    requires free { R.fixed ≡ false }
    requires new { writer.history ≡ [] }
{
    let published = publish_all(rt, &mut writer, &to).is_ok();
    (writer, published)
}

// Hears what is told until no more comes, and counts the answers that lack a message told of.
fn serve<J: Naming, R: FixedRun, W: Wait>(
    rt: &W,
    mut server: Server<J, R>,
    from: Receiver<Told<J, R>>,
) -> (Server<J, R>, u32) {
    let mut heard = 0u16;
    let mut wrong = 0u32;
    for _ in rt.forever() {
        let Ok(told) = from.recv(rt) else {
            break;
        };
        server.hear_told(told);
        heard = heard.saturating_add(1);
        if !finds(&mut server, heard.min(100)) {
            wrong = wrong.saturating_add(1);
        }
    }
    (server, wrong)
}
