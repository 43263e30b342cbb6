//! A venue's own commands: that each is accepted, whatever their number, and that their text says
//! them second by second.

use pitch_messages::Raw;
use pitch_text::Command;
use std::alloc::Global;
use std::process::Abort;
use unit_commands::UnitCommands;
use venue_core::Venue;
use venue_net::InputRead;
use venue_plan::{PlanText, made_command};

// Numbers and units, at the ends of their ranges and between them.
const PLANS: [(u64, u8); 12] = [
    (0, 1),
    (1, 255),
    (2, 64),
    (99, 7),
    (199, 1),
    (200, 1),
    (399, 2),
    (400, 128),
    (999, 3),
    (1_000_000_007, 9),
    (9_223_372_036_854_775_807, 200),
    (u64::MAX, 255),
];

// A venue accepts each of so many commands, and the last one ends its session.
fn are_accepted(rt: &impl Abort, alloc: Global, number: u64, unit: u8, count: u32) {
    let mut venue = Venue::make(alloc, unit);
    for before in 0..count {
        let command = made_command(number, unit, count, before + 1);
        assert!(rt; venue.accept(&command) == Ok(before + 1));
        assert!(rt; venue.book().len() <= 132);
    }
    assert!(rt; venue.last_raw().map(Raw::kind) == Some(0x2d));
    drop(venue);
}

#[test]
fn each_is_accepted_whatever_the_number(rt: HostRuntime) {
    for (number, unit) in &PLANS {
        are_accepted(&rt, rt.alloc(), *number, *unit, 100);
    }
}

#[test]
fn the_book_is_cleared_in_time(rt: HostRuntime) {
    are_accepted(&rt, rt.alloc(), 7, 1, 3200);
}

// Appends what the text gives by the next second, in pieces of so many bytes: its last answer.
fn take_second(
    rt: &impl Abort,
    plan: &mut PlanText,
    into: &mut [u8],
    text: &mut Vec<u8>,
) -> InputRead {
    assert!(rt; !into.is_empty());
    for _ in 0..100_000 {
        match plan.read(into).expect(rt, "memory") {
            InputRead::Got(count) => text.extend_from_slice(&into[..count]).expect(rt, "memory"),
            answer => return answer,
        }
    }
    InputRead::Failed
}

// A venue that has accepted the first commands of fifty.
fn venue_after(rt: &impl Abort, alloc: Global, number: u64, unit: u8, first: u32) -> Venue {
    let mut venue = Venue::make(alloc, unit);
    for before in 0..first {
        let command = made_command(number, unit, 50, before + 1);
        assert!(rt; venue.accept(&command) == Ok(before + 1));
    }
    venue
}

// A venue makes the same message of two commands, and accepts it.
fn are_same(rt: &impl Abort, venue: &mut Venue, said: &Command, made: &Command) {
    let one = venue.prepare(said).expect(rt, "accepted");
    let other = venue.prepare(made).expect(rt, "accepted");
    assert!(rt; one.bytes() == other.bytes());
    assert!(rt; venue.accept(made).is_ok());
    drop(one);
    drop(other);
}

// The text says the commands of fifty of each of two units, command by command, that come behind
// those that their venues have accepted: how many.
fn says(
    rt: &impl Abort,
    text: &[u8],
    number: u64,
    units: (u8, u8),
    first: u32,
    venues: (&mut Venue, &mut Venue),
) -> u32 {
    assert!(rt; text.len() < 100_000);
    let mut line = 0;
    for item in UnitCommands::of_text(text) {
        assert!(rt; line < 100_000 && first < 100_000 && item.is_ok());
        if let Ok(entry) = item {
            let is_first = line % 2 == 0;
            let unit = if is_first { units.0 } else { units.1 };
            let command = made_command(number, unit, 50, first + line / 2 + 1);
            assert!(rt; entry.unit == unit);
            if is_first {
                are_same(rt, venues.0, &entry.command, &command);
            } else {
                are_same(rt, venues.1, &entry.command, &command);
            }
        }
        line += 1;
    }
    line
}

// Fifty commands of units 3 and 255, twenty a second, by pieces of so many bytes.
fn is_given(rt: &impl Abort, alloc: Global, into: &mut [u8]) {
    let units = [3, 255];
    let own = units.as_slice().to_vec(alloc).expect(rt, "memory");
    let mut plan = PlanText::make(alloc, 7, own, 50, 20);
    // From which command on, how many lines, and the answer then.
    let turns = [
        (0, 40, InputRead::Quiet),
        (20, 40, InputRead::Quiet),
        (40, 20, InputRead::Ended),
    ];
    for (first, lines, answer) in &turns {
        let mut text = Vec::new(alloc);
        assert!(rt; take_second(rt, &mut plan, into, &mut text) == *answer);
        let mut third = venue_after(rt, alloc, 7, 3, *first);
        let mut last = venue_after(rt, alloc, 7, 255, *first);
        assert!(rt; says(rt, &text, 7, (3, 255), *first, (&mut third, &mut last)) == *lines);
        drop(third);
        drop(last);
        plan.second();
    }
}

#[test]
fn the_text_says_them_second_by_second(rt: HostRuntime) {
    is_given(&rt, rt.alloc(), &mut [0; 1]);
    is_given(&rt, rt.alloc(), &mut [0; 700]);
}
