//! Two units of a venue in one table: unit 2 with the index 0, and unit 1 with the index 1.

use crate::proxies::LOGIN;
use crate::spins::LOGIN as SPIN_LOGIN;
use crate::venue_ends::{BOTH, LOGGED_IN, REQUEST, RESENT, is_alone, setup};
use pitch_text::Command;
use std::alloc::Global;
use std::process::Abort;
use unit_packets::DatagramList;
use venue_units::VenueUnits;

fn made(rt: &impl Abort, alloc: Global) -> VenueUnits {
    VenueUnits::make(alloc, &[setup(2), setup(1)]).expect(rt, "memory")
}

// The seconds 33 and 34 come to unit 1.
fn accepts_two(rt: &impl Abort, units: &mut VenueUnits) {
    assert!(rt; units.accept(1, &Command::Time { second: 33 }) == Ok(1));
    assert!(rt; units.accept(1, &Command::Time { second: 34 }) == Ok(2));
}

#[test]
fn units_are_told_apart(rt: HostRuntime) {
    let units = made(&rt, rt.alloc());
    assert!(rt; units.count() == 2);
    assert!(rt; units.unit(0) == Some(2));
    assert!(rt; units.unit(2) == None::<u8>);
    assert!(rt; units.index_of(1) == Some(1));
    assert!(rt; units.index_of(3) == None::<usize>);
    drop(units);
}

// Each sends what it accepted itself, and tells of its own next sequence.
#[test]
fn each_sends_its_own_messages(rt: HostRuntime) {
    let mut units = made(&rt, rt.alloc());
    accepts_two(&rt, &mut units);
    let mut lines = DatagramList::make(rt.alloc());
    assert!(rt; units.flush(0, &mut lines) == Ok(0));
    assert!(rt; units.flush(1, &mut lines) == Ok(1));
    assert!(rt; is_alone(&lines, BOTH));
    assert!(rt; units.beat(0) == [8, 0, 0, 2, 1, 0, 0, 0]);
    assert!(rt; units.beat(1) == [8, 0, 0, 1, 3, 0, 0, 0]);
    drop(units);
}

// A client of unit 1's proxy logs in at a place and asks for a message.
fn asks_for_a_gap(rt: &impl Abort, units: &mut VenueUnits, line: &mut DatagramList) {
    units.connect(130).expect(rt, "memory");
    units.take(130, LOGIN, line).expect(rt, "memory");
    assert!(rt; units.waiting(130) == LOGGED_IN);
    units.put(130, LOGGED_IN.len());
    units.take(130, REQUEST, line).expect(rt, "memory");
    let reply = [18, 0, 1, 0, 0, 0, 0, 0, 10, 4, 1, 2, 0, 0, 0, 1, 0, b'A'];
    assert!(rt; units.waiting(130) == reply.as_slice());
}

#[test]
fn a_gap_is_answered_at_its_place(rt: HostRuntime) {
    let mut units = made(&rt, rt.alloc());
    accepts_two(&rt, &mut units);
    let mut line = DatagramList::make(rt.alloc());
    asks_for_a_gap(&rt, &mut units, &mut line);
    assert!(rt; is_alone(&line, RESENT));
    assert!(rt; !units.is_shut(130));
    assert!(rt; units.is_shut(2));
    assert!(rt; units.is_shut(194));
    units.cut(130);
    assert!(rt; units.is_shut(130));
    drop(units);
}

// What waits at a place, all of which is then put.
fn says(rt: &impl Abort, units: &mut VenueUnits, said: &[u8]) {
    assert!(rt; units.waiting(192) == said);
    units.put(192, said.len());
}

// A client of unit 1's Spin Server logs in at a place and asks for the image of both messages.
fn asks_for_an_image(rt: &impl Abort, units: &mut VenueUnits, line: &mut DatagramList) {
    units.connect(192).expect(rt, "memory");
    units.take(192, SPIN_LOGIN, line).expect(rt, "memory");
    says(rt, units, b"\x0b\0\x01\x01\0\0\0\0\x03\x02A");
    units.advertise(1).expect(rt, "memory");
    says(rt, units, b"\x0e\0\x01\x01\0\0\0\0\x06\x80\x02\0\0\0");
    let request = b"\x0e\0\x01\x01\0\0\0\0\x06\x81\x02\0\0\0";
    units.take(192, request, line).expect(rt, "memory");
    let reply = b"\x13\0\x01\x01\0\0\0\0\x0b\x82\x02\0\0\0\0\0\0\0A";
    says(rt, units, reply);
}

// Its blocks are asked for one by one; nothing is asked of a proxy.
#[test]
fn an_image_is_pumped_at_its_place(rt: HostRuntime) {
    let mut units = made(&rt, rt.alloc());
    accepts_two(&rt, &mut units);
    let mut line = DatagramList::make(rt.alloc());
    asks_for_an_image(&rt, &mut units, &mut line);
    assert!(rt; line.as_slice().is_empty());
    units.second(1).expect(&rt, "memory");
    assert!(rt; units.pump(130) == Ok(false));
    assert!(rt; units.pump(192) == Ok(true));
    assert!(rt; units.pump(192) == Ok(false));
    assert!(rt; !units.waiting(192).is_empty());
    drop(units);
}
