//! A server asked in the thread of its writer.
ghost use Rattle.std.specs.Prelude.{◌≡◌, ◌<◌, ◌≤◌, ◌+◌, ◌^◌, [], false, length, OnOk};

use gap_store::{Found, GapLookup};
use pitch_fields::OutOfMemory;
use pitch_messages::RawList;
use shared_unit::{
    FixedRun, LeftRightPlaces, MakeError, Naming, Opened, Places, Server, Writer, make,
};
use spin_server::{ImageLookup, Imaged};
use std::alloc::Global;
use std::marker::Brand;
use std::process::Abort;
use std::sync::Wait;
use unit_packets::DatagramList;
use venue_core::{VenueError, plan_command};

// The plan's first message: the second of the day.
const FIRST: &[u8] = b"\x06\x20\x98\x85\0\0";

// Lets a writer accept a command of the plan.
pub(crate) fn accept_one<J: Naming, R: FixedRun, W: Wait + Drop>(
    writer: &mut Writer<J, R, W>,
    index: u32,
) -> Result<(), VenueError>
    requires index { 1 ≤ index }
    requires free { R.fixed ≡ false }
    requires few { length writer.old.history < 2 ^ 63 }
    ensures { OnOk result (length writer.new.history ≡ length writer.old.history + 1) }
{
    writer.accept(&plan_command(0, 1, index))?;
    Ok(())
}

// Lets a new writer accept the first commands of the plan.
pub(crate) fn accept_plan<J: Naming, R: FixedRun, W: Wait + Drop>(
    writer: &mut Writer<J, R, W>,
    count: u32,
) -> Result<(), VenueError>
    requires free { R.fixed ≡ false }
    requires new { writer.old.history ≡ [] }
    ensures { OnOk result (length writer.new.history ≡ count) }
{
    'commands: for index in 0..count {
        accept_one(writer, index + 1)?;
    }
    Ok(())
}

// The writer of a pair that was opened, and its servers.
fn make_all<J: Naming, R: FixedRun, W: Wait + Abort + AllocGlobal>(
    rt: &W,
    opened: Opened<R>,
) -> (Writer<J, R, &W>, Vec<Server<J, R>>)
    requires book { opened.seen.book ≡ J.book }
    requires kept { opened.kept ≡ J.kept }
    ensures { result.0.history ≡ [] }
{
    let mut places = LeftRightPlaces::make();
    make::<J, R, &W, LeftRightPlaces>(rt, rt.alloc(), opened, &mut places).expect(rt, "memory")
}

// The writer of a pair that was opened for one server, and that server.
pub(crate) fn make_one<J: Naming, R: FixedRun, W: Wait + Abort + AllocGlobal>(
    rt: &W,
    opened: Opened<R>,
) -> (Writer<J, R, &W>, Server<J, R>)
    requires book { opened.seen.book ≡ J.book }
    requires kept { opened.kept ≡ J.kept }
    ensures { result.0.history ≡ [] }
{
    let (writer, mut servers) = make_all::<J, R, W>(rt, opened);
    let server = servers.pop().expect(rt, "a server");
    drop(servers);
    (writer, server)
}

// Whether a server that was told nothing answers that message 1 is kept, and with it, or that none
// came yet.
pub(crate) fn answers_first<J: Naming, R: FixedRun>(
    alloc: Global,
    server: &mut Server<J, R>,
) -> bool {
    let mut out = RawList::make(alloc);
    match server.gap(1, 1, &mut out) {
        Ok(Found::Kept) => out.get(0) == Some(FIRST),
        Ok(Found::Ahead { last: 0 }) => out.len() == 0,
        _ => false,
    }
}

#[test]
fn one_server_answers(rt: HostRuntime) {
    start_one::<Brand, _>(&rt);
}

// Picks the run, which fixes nothing.
fn start_one<R: FixedRun, W: Wait + Abort + AllocGlobal>(rt: &W)
    requires free { R.fixed ≡ false }
{
    let opened: Opened<R> = Opened::make(rt.alloc(), 1, 4096, 1).expect(rt, "memory");
    ask_one::<Brand, R, W>(rt, opened);
}

// What is let go here and below goes by a call of `drop`.
fn ask_one<J: Naming, R: FixedRun, W: Wait + Abort + AllocGlobal>(rt: &W, opened: Opened<R>)
    requires book { opened.seen.book ≡ J.book }
    requires kept { opened.kept ≡ J.kept }
    requires free { R.fixed ≡ false }
{
    let (mut writer, mut server) = make_one::<J, R, W>(rt, opened);
    assert!(rt; has_no_place(&mut writer));
    answers_of_hundred(rt, rt.alloc(), &mut writer, &mut server);
    writer.close();
    // servers go on
    assert!(rt; hands_out(rt.alloc(), &mut server, 1, FIRST) == Ok(true));
    drop(server);
}

// Whether there is no place for one server more.
fn has_no_place<J: Naming, R: FixedRun, H: Wait + Drop>(writer: &mut Writer<J, R, H>) -> bool
    ensures { writer.new ≡ writer.old }
{
    match LeftRightPlaces::make().place(writer) {
        Err(MakeError::NoPlace) => true,
        _ => false,
    }
}

// A server answers of 100 commands, and of their image.
fn answers_of_hundred<J: Naming, R: FixedRun, H: Wait + Drop, A: Abort>(
    rt: &A,
    alloc: Global,
    writer: &mut Writer<J, R, H>,
    server: &mut Server<J, R>,
)
    requires free { R.fixed ≡ false }
    requires new { writer.old.history ≡ [] }
{
    accept_plan(writer, 100).expect(rt, "they are accepted");
    assert!(rt; hears(writer, server, 100) && gaps_are_right(alloc, writer, server));
    advertises_twice(rt, writer);
    assert!(rt; hears(writer, server, 102) && images_are_right(alloc, server));
    // what the server has seen begins the history
    writer.covers(server);
}

// Whether a server has seen so many operations once it was told of all.
pub(crate) fn hears<J: Naming, R: FixedRun, H: Wait + Drop>(
    writer: &mut Writer<J, R, H>,
    server: &mut Server<J, R>,
    count: u64,
) -> bool
    ensures { writer.new ≡ writer.old }
{
    server.hear_told(writer.tell());
    server.seen() == count
}

// Whether a server hands out this message.
fn hands_out<J: Naming, R: FixedRun>(
    alloc: Global,
    server: &mut Server<J, R>,
    sequence: u32,
    raw: &[u8],
) -> Result<bool, OutOfMemory>
    requires { 1 ≤ sequence }
{
    let mut out = RawList::make(alloc);
    match server.gap(sequence, 1, &mut out)? {
        Found::Kept => Ok(out.get(0) == Some(raw)),
        _ => Ok(false),
    }
}

// Whether there are so many messages, and no more.
fn has_all<J: Naming, R: FixedRun>(alloc: Global, server: &mut Server<J, R>, last: u32) -> bool
    requires { last < 65536 }
{
    let mut out = RawList::make(alloc);
    server.gap(last + 1, 1, &mut out) == Ok(Found::Ahead { last })
}

// Whether the first messages are kept, when a proxy looks for them.
pub(crate) fn finds<J: Naming, R: FixedRun>(server: &mut Server<J, R>, count: u16) -> bool
    requires { 1 ≤ count }
{
    server.find(1, count) == Ok(Found::Kept)
}

// Whether a proxy gets the first message, alone and packed.
fn serves_a_proxy<J: Naming, R: FixedRun>(alloc: Global, server: &mut Server<J, R>) -> bool {
    let mut out = RawList::make(alloc);
    let looked = server.look(1, 1, &mut out) == Ok(Found::Kept);
    let mut lines = DatagramList::make(alloc);
    let packed = server.pack(alloc, 1, 1, 1, &mut lines) == Ok(Found::Kept);
    looked && packed && out.get(0) == Some(FIRST) && lines.len() == 1
}

// The messages of 100 commands, by each of the look-ups.
fn gaps_are_right<J: Naming, R: FixedRun, H: Wait + Drop>(
    alloc: Global,
    writer: &Writer<J, R, H>,
    server: &mut Server<J, R>,
) -> bool {
    let last = match writer.last_raw() {
        Some(raw) => hands_out(alloc, server, 100, raw.bytes()) == Ok(true),
        None => false,
    };
    let all = has_all(alloc, server, 100) && finds(server, 100);
    last && all && serves_a_proxy(alloc, server) && server.available().is_none()
}

// Advertises the image of 100 messages, and again.
fn advertises_twice<J: Naming, R: FixedRun, H: Wait + Drop, A: Abort>(
    rt: &A,
    writer: &mut Writer<J, R, H>,
)
    requires { length writer.old.history ≡ 100 }
{
    let first = writer.advertise().expect(rt, "memory");
    let again = writer.advertise().expect(rt, "memory");
    assert!(rt; (first, again) == (100, 100));
}

// Whether the image of the first 100 messages, a second and 32 orders, is there, and no other.
fn images_are_right<J: Naming, R: FixedRun>(alloc: Global, server: &mut Server<J, R>) -> bool {
    let mut out = RawList::make(alloc);
    let whole = Server::image(server, 100, &mut out) == Ok(Imaged::Image { orders: 32 });
    let other = Server::image(server, 99, &mut out) == Ok(Imaged::NotAdvertised);
    whole && other && out.len() == 33 && serves_a_spin(server)
}

// Whether a Spin Server finds the image of the first 100 messages alone.
fn serves_a_spin<J: Naming, R: FixedRun>(server: &mut Server<J, R>) -> bool {
    let newest = (server.available(), server.newest());
    let there = (server.has_image(100), server.has_image(99));
    (newest, there) == ((Some(100), Some(100)), (true, false))
}

#[test]
fn two_servers_answer(rt: HostRuntime) {
    start_two::<Brand, _>(&rt);
}

// Picks the run, which fixes nothing.
fn start_two<R: FixedRun, W: Wait + Abort + AllocGlobal>(rt: &W)
    requires free { R.fixed ≡ false }
{
    let opened: Opened<R> = Opened::make(rt.alloc(), 1, 4096, 2).expect(rt, "memory");
    ask_two::<Brand, R, W>(rt, opened);
}

fn ask_two<J: Naming, R: FixedRun, W: Wait + Abort + AllocGlobal>(rt: &W, opened: Opened<R>)
    requires book { opened.seen.book ≡ J.book }
    requires kept { opened.kept ≡ J.kept }
    requires free { R.fixed ≡ false }
{
    let (mut writer, mut servers) = make_all::<J, R, W>(rt, opened);
    assert!(rt; both_answer(rt, rt.alloc(), &mut writer, &mut servers));
    // a writer that is not closed takes the copies along
    drop(writer);
    assert!(rt; have_nothing(rt.alloc(), &mut servers));
    drop(servers);
}

// Whether there are two servers, which answer as they should.
fn both_answer<J: Naming, R: FixedRun, H: Wait + Drop, A: Abort>(
    rt: &A,
    alloc: Global,
    writer: &mut Writer<J, R, H>,
    servers: &mut Vec<Server<J, R>>,
) -> bool
    requires free { R.fixed ≡ false }
    requires new { writer.old.history ≡ [] }
{
    match servers.as_mut_slice() {
        [one, two] => {
            answer_of_three(rt, alloc, writer, one, two);
            true
        }
        _ => false,
    }
}

// Whether no server has an answer.
fn have_nothing<J: Naming, R: FixedRun>(alloc: Global, servers: &mut Vec<Server<J, R>>) -> bool {
    match servers.as_mut_slice() {
        [one, two] => has_nothing(alloc, one) && has_nothing(alloc, two),
        _ => false,
    }
}

// Two servers answer of three commands and their image, told of them or not.
fn answer_of_three<J: Naming, R: FixedRun, H: Wait + Drop, A: Abort>(
    rt: &A,
    alloc: Global,
    writer: &mut Writer<J, R, H>,
    one: &mut Server<J, R>,
    two: &mut Server<J, R>,
)
    requires free { R.fixed ≡ false }
    requires new { writer.old.history ≡ [] }
{
    accept_plan(writer, 3).expect(rt, "they are accepted");
    assert!(rt; sees_three(alloc, one) && sees_three(alloc, two));
    assert!(rt; writer.advertise() == Ok(3));
    // still nothing was told
    assert!(rt; one.has_image(3) && two.available() == Some(3));
    assert!(rt; hears(writer, one, 4) && hands_out(alloc, one, 1, FIRST) == Ok(true));
}

// Whether a server that was told nothing sees three commands.
fn sees_three<J: Naming, R: FixedRun>(alloc: Global, server: &mut Server<J, R>) -> bool {
    answers_first(alloc, server) && server.seen() == 3
}

// Whether a server has no memory for an answer, and names the image that it saw last.
fn has_nothing<J: Naming, R: FixedRun>(alloc: Global, server: &mut Server<J, R>) -> bool {
    hands_out(alloc, server, 1, FIRST).is_err() && server.available() == Some(3)
}
