//! Venues: answers to commands, what a flush sends, the plan, and lost copies.

use pitch_fields::{Price, Side, Symbol};
use pitch_messages::{Order, Raw};
use pitch_text::{Command, CommandList, read_commands};
use std::alloc::Global;
use std::process::Abort;
use unit_packets::DatagramList;
use venue_core::{Venue, VenueError, lost, plan_command};

// The commands of a session, and what the venue answers to each.
const SESSION: [(&str, Result<u32, VenueError>); 32] = [
    ("add 1 B 100 IBM 10.00", Ok(1)),
    ("add 1 B 1 IBM 1", Err(VenueError::KnownId)),
    ("exec 1 101 9", TOO_MUCH),
    ("reduce 2 5", Err(VenueError::UnknownId)),
    ("add 2 B 0 IBM 1", Err(VenueError::ZeroQuantity)),
    ("execat 1 40 0 7 9.99", Ok(2)),
    ("add 1 S 30 IBM 10.05", Ok(3)),
    ("clear", Ok(4)),
    // an order may be taken whole, and not more
    ("add 3 B 10 IBM 1 hidden mpid=AB", Ok(5)),
    ("reduce 3 11", ONE_TOO_MUCH),
    ("execat 3 11 0 7 1", ONE_TOO_MUCH),
    ("modify 3 20 2", Ok(6)),
    ("exec 3 20 9", Ok(7)),
    ("delete 3", Err(VenueError::UnknownId)),
    ("modify 3 1 1", Err(VenueError::UnknownId)),
    ("exec 3 1 1", Err(VenueError::UnknownId)),
    ("execat 3 1 1 1 1", Err(VenueError::UnknownId)),
    // of two refusals the first
    ("add 3 B 5 IBM 1", Ok(8)),
    ("add 3 B 0 IBM 1", Err(VenueError::ZeroQuantity)),
    ("exec 4 0 9", Err(VenueError::ZeroQuantity)),
    ("execat 4 0 1 7 1", Err(VenueError::ZeroQuantity)),
    ("reduce 4 0", Err(VenueError::ZeroQuantity)),
    ("modify 4 0 1", Err(VenueError::ZeroQuantity)),
    ("trade 4 B 0 IBM 1 2", Err(VenueError::ZeroQuantity)),
    // no order has to be open
    ("trade 4 B 1 IBM 1 2", Ok(9)),
    ("break 2", Ok(10)),
    ("time 34200", Ok(11)),
    ("delete 3", Ok(12)),
    ("status IBM H 0", Ok(13)),
    ("end", Ok(14)),
    ("delete 1", Err(VenueError::Ended)),
    ("status IBM T 0", Err(VenueError::Ended)),
];

const TOO_MUCH: Result<u32, VenueError> = Err(VenueError::TooMuch {
    asked: 101,
    held: 100,
});

const ONE_TOO_MUCH: Result<u32, VenueError> = Err(VenueError::TooMuch {
    asked: 11,
    held: 10,
});

// The command that a text says.
fn command_of(rt: &impl Abort, alloc: Global, text: &str) -> Command {
    let mut commands = CommandList::make(alloc);
    assert!(rt; text.len() < 1000);
    assert!(rt; read_commands(text.as_bytes(), &mut commands).is_ok());
    assert!(rt; commands.len() == 1);
    commands.get(0).expect(rt, "a command").command
}

#[test]
fn each_command_of_a_session_is_answered(rt: HostRuntime) {
    let mut venue = Venue::make(rt.alloc(), 1);
    assert!(rt; venue.last_raw().is_none());
    play(&rt, rt.alloc(), &mut venue, &SESSION);
    assert!(rt; is_over(&venue));
    drop(venue);
}

// Lets a venue judge commands, and compares its answers.
fn play(
    rt: &impl Abort,
    alloc: Global,
    venue: &mut Venue,
    session: &[(&str, Result<u32, VenueError>)],
) {
    for (text, expected) in session {
        let command = command_of(rt, alloc, text);
        assert!(rt; venue.accept(&command) == *expected);
    }
}

// What the session leaves: 14 messages, the last of which ends it, a second and no order.
fn is_over(venue: &Venue) -> bool {
    let book = venue.book();
    let last = venue.last_raw().map(Raw::kind);
    (venue.next_sequence(), book.len(), book.second(), last) == (15, 0, Some(34_200), Some(0x2d))
}

const DELETE: Command = Command::Delete { id: 1, offset: 0 };

const DELETION: &[u8] = b"\x0e\x29\0\0\0\0\x01\0\0\0\0\0\0\0";

// Makes ready the deletion of order 1, takes it as message 2, and then it is refused.
fn takes_ready(rt: &impl Abort, venue: &mut Venue) {
    let raw = venue.prepare(&DELETE).expect(rt, "it is accepted");
    assert!(rt; raw.bytes() == DELETION);
    assert!(rt; venue.next_sequence() == 2);
    assert!(rt; venue.take_ready() == 2);
    assert!(rt; venue.prepare(&DELETE).err() == Some(VenueError::UnknownId));
}

// Sends what was accepted, in datagrams of these sizes.
fn sends(rt: &impl Abort, alloc: Global, venue: &mut Venue, sizes: &[usize]) {
    let mut out = DatagramList::make(alloc);
    let count = venue.flush(&mut out).expect(rt, "memory");
    assert!(rt; count as usize == sizes.len() && have_sizes(&out, sizes));
}

// Whether the datagrams have these sizes.
fn have_sizes(out: &DatagramList, sizes: &[usize]) -> bool {
    for (datagram, size) in out.as_slice().iter().zip(sizes) {
        if datagram.len() != *size {
            return false;
        }
    }
    out.len() == sizes.len()
}

#[test]
fn a_message_is_made_ready_and_taken(rt: HostRuntime) {
    let add = command_of(&rt, rt.alloc(), "add 1 B 100 IBM 10.00");
    let mut venue = Venue::make(rt.alloc(), 1);
    assert!(rt; venue.accept(&add) == Ok(1));
    takes_ready(&rt, &mut venue);
    sends(&rt, rt.alloc(), &mut venue, &[8 + 26 + 14]);
    drop(venue);
}

// Symbols and participants, and whether an add may have them.
const NAMES: [(&[u8; 8], &[u8; 4], bool); 9] = [
    (b"IBM     ", b"    ", true),
    (b"ABCDEFGH", b"ABCD", true),
    (b"I       ", b"A   ", true),
    (b"        ", b"    ", false),
    (b" IBM    ", b"    ", false),
    (b"I M     ", b"    ", false),
    (b"I\\M     ", b"    ", false),
    (b"IBM     ", b"A B ", false),
    (b"IBM     ", b" A  ", false),
];

// An add with these names.
fn add_of(symbol: &[u8; 8], participant: &[u8; 4]) -> Command {
    let order = Order {
        id: 1,
        side: Side::Buy,
        quantity: 1,
        symbol: Symbol::from_eight(*symbol),
        price: Price::from_long(1),
        display: true,
        participant: *participant,
    };
    Command::Add { order, offset: 0 }
}

// What a new venue answers.
fn first_answer(alloc: Global, command: &Command) -> Result<u32, VenueError> {
    let mut venue = Venue::make(alloc, 1);
    let answer = venue.accept(command);
    drop(venue);
    answer
}

fn are_judged(rt: &impl Abort, alloc: Global, names: &[(&[u8; 8], &[u8; 4], bool)]) {
    for (symbol, participant, allowed) in names {
        let answer = first_answer(alloc, &add_of(symbol, participant));
        let wanted = if *allowed {
            Ok(1)
        } else {
            Err(VenueError::BadSymbol)
        };
        assert!(rt; answer == wanted);
    }
}

#[test]
fn an_add_needs_well_formed_names(rt: HostRuntime) {
    are_judged(&rt, rt.alloc(), &NAMES);
}

// Commands that are accepted and then sent; and what the venue's heartbeat is before they are sent
// and after it.
const FLUSHES: [(&[&str], &[u8; 8], &[u8; 8]); 3] = [
    (
        &["add 1 B 100 IBM 655.35", "add 2 B 100 IBM 655.36"],
        b"\x08\0\0\x01\x01\0\0\0",
        b"\x08\0\0\x01\x03\0\0\0",
    ),
    (
        &["time 34200", "break 7"],
        b"\x08\0\0\x01\x03\0\0\0",
        b"\x08\0\0\x01\x05\0\0\0",
    ),
    (
        &["time 34201"],
        b"\x08\0\0\x01\x05\0\0\0",
        b"\x08\0\0\x01\x06\0\0\0",
    ),
];

// What is sent: adds of two forms in one datagram, then what is new.
const SENT: [&[u8]; 3] = [
    b"\x44\0\x02\x01\x01\0\0\0\
      \x1a\x22\0\0\0\0\x01\0\0\0\0\0\0\0\x42\x64\0\x49\x42\x4d\x20\x20\x20\xff\xff\x01\
      \x22\x21\0\0\0\0\x02\0\0\0\0\0\0\0\x42\x64\0\0\0\x49\x42\x4d\x20\x20\x20\0\0\x64\0\0\0\0\0\x01",
    b"\x1c\0\x02\x01\x03\0\0\0\x06\x20\x98\x85\0\0\x0e\x2c\0\0\0\0\x07\0\0\0\0\0\0\0",
    b"\x0e\0\x01\x01\x05\0\0\0\x06\x20\x99\x85\0\0",
];

// Accepts commands.
fn accept_all(rt: &impl Abort, alloc: Global, venue: &mut Venue, texts: &[&str]) {
    for text in texts {
        let command = command_of(rt, alloc, text);
        assert!(rt; venue.accept(&command).is_ok());
    }
}

// Does so with each of these commands and sends them, and compares the heartbeats.
fn flush_each(
    rt: &impl Abort,
    alloc: Global,
    flushes: &[(&[&str], &[u8; 8], &[u8; 8])],
    out: &mut DatagramList,
) {
    let mut venue = Venue::make(alloc, 1);
    for (texts, before, after) in flushes {
        accept_all(rt, alloc, &mut venue, texts);
        assert!(rt; venue.beat() == **before);
        assert!(rt; venue.flush(out).is_ok());
        assert!(rt; venue.beat() == **after);
    }
    drop(venue);
}

// Whether these datagrams were sent.
fn are_sent(out: &DatagramList, expected: &[&[u8]]) -> bool {
    for (datagram, bytes) in out.as_slice().iter().zip(expected) {
        if datagram.bytes() != *bytes {
            return false;
        }
    }
    out.len() == expected.len()
}

#[test]
fn each_flush_sends_what_is_new(rt: HostRuntime) {
    let mut out = DatagramList::make(rt.alloc());
    flush_each(&rt, rt.alloc(), &FLUSHES, &mut out);
    assert!(rt; are_sent(&out, &SENT));
}

// Accepts so many seconds from the first on.
fn accept_seconds(rt: &impl Abort, venue: &mut Venue, count: u32) {
    for second in 0..count {
        assert!(rt; venue.accept(&Command::Time { second }) == Ok(second + 1));
    }
}

#[test]
fn a_full_datagram_is_followed_by_another(rt: HostRuntime) {
    let mut venue = Venue::make(rt.alloc(), 1);
    // 232 messages of 6 bytes fill a datagram of 1,400 bytes.
    accept_seconds(&rt, &mut venue, 465);
    sends(&rt, rt.alloc(), &mut venue, &[1400, 1400, 14]);
    assert!(rt; venue.beat() == *b"\x08\0\0\x01\xd2\x01\0\0");
    drop(venue);
}

// Some commands of the plan, as text says them.
const PLAN: [(u64, u8, u32, &str); 10] = [
    (0, 1, 1, "time 34200"),
    (0, 1, 2, "add 2 B 175 GAMMADLT 10.02"),
    (0, 1, 3, "add 3 S 212 ALPHA 11.03"),
    (0, 1, 4, "exec 2 50 4"),
    (0, 1, 5, "reduce 3 20"),
    (0, 1, 6, "modify 2 323 10.06"),
    (0, 1, 7, "add 7 B 360 BETA 10.0701"),
    (0, 1, 8, "delete 7"),
    (0, 1, 16, "trade 16 B 293 BETA 10.16 16"),
    (
        u64::MAX,
        255,
        400_000,
        "trade 400000 B 370 BETA 10.15 400000",
    ),
];

// A venue makes the same message of the plan's command and of a text's.
fn are_same(rt: &impl Abort, venue: &mut Venue, planned: &Command, said: &Command) {
    let one = venue.prepare(planned).expect(rt, "accepted");
    let other = venue.prepare(said).expect(rt, "accepted");
    assert!(rt; one.bytes() == other.bytes());
    drop(one);
    drop(other);
}

// A trade needs no command before it, and the last one has very many.
fn are_planned(rt: &impl Abort, alloc: Global, plan: &[(u64, u8, u32, &str)]) {
    for (number, unit, index, text) in plan {
        assert!(rt; *index >= 1);
        let command = command_of(rt, alloc, text);
        let mut venue = Venue::make(alloc, *unit);
        if *index < 100 {
            accept_plan(rt, &mut venue, *number, *unit, *index - 1);
        }
        let planned = plan_command(*number, *unit, *index);
        are_same(rt, &mut venue, &planned, &command);
        drop(venue);
    }
}

#[test]
fn the_plan_is_made_of_its_number_unit_and_index(rt: HostRuntime) {
    are_planned(&rt, rt.alloc(), &PLAN);
}

// The number and the unit of a plan, how many of its first commands are accepted, and the orders
// and the shares that these leave.
const ACCEPTED: [(u64, u8, u32, u32, u64); 5] = [
    (0, 1, 16, 5, 1078),
    (0, 2, 16, 5, 1083),
    (0, 1, 200, 62, 18_219),
    (1, 1, 2000, 625, 181_375),
    (1, 2, 2000, 625, 182_000),
];

// Accepts the first commands of a plan.
fn accept_plan(rt: &impl Abort, venue: &mut Venue, number: u64, unit: u8, count: u32) {
    for index in 1..=count {
        assert!(rt; venue.accept(&plan_command(number, unit, index)) == Ok(index));
    }
}

fn are_accepted(rt: &impl Abort, alloc: Global, plans: &[(u64, u8, u32, u32, u64)]) {
    for (number, unit, count, orders, shares) in plans {
        let mut venue = Venue::make(alloc, *unit);
        accept_plan(rt, &mut venue, *number, *unit, *count);
        assert!(rt; venue.book().len() == *orders && venue.book().shares() == *shares);
        drop(venue);
    }
}

#[test]
fn a_venue_accepts_the_plan(rt: HostRuntime) {
    are_accepted(&rt, rt.alloc(), &ACCEPTED);
}

// The number and the unit of a plan, how many copies of the first 2,000 datagrams are lost on both
// lines, and the datagram and the line of the first of them.
const LOSSES: [(u64, u8, u32, (u32, u8)); 4] = [
    (0, 1, 202, (2, 2)),
    (1, 2, 185, (5, 1)),
    (7, 16, 211, (1, 2)),
    (u64::MAX, 255, 189, (3, 2)),
];

// How many of these copies are lost, and the first.
fn lost_of(number: u64, unit: u8) -> (u32, Option<(u32, u8)>) {
    let mut count = 0u32;
    let mut first = None;
    for index in 1..=2000 {
        for line in [1, 2] {
            if lost(number, unit, index, line) {
                count = count.wrapping_add(1);
                first = first.or(Some((index, line)));
            }
        }
    }
    (count, first)
}

fn are_lost(rt: &impl Abort, losses: &[(u64, u8, u32, (u32, u8))]) {
    for (number, unit, count, first) in losses {
        assert!(rt; lost_of(*number, *unit) == (*count, Some(*first)));
    }
}

#[test]
fn a_copy_of_twenty_is_lost(rt: HostRuntime) {
    are_lost(&rt, &LOSSES);
    assert!(rt; !lost(u64::MAX, 255, u32::MAX, 255));
}
