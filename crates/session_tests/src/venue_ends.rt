//! The venue's end of a unit: the test carries the bytes.

ghost use Rattle.std.specs.Prelude.{◌≡◌};

use crate::proxies::LOGIN;
use crate::spins::LOGIN as SPIN_LOGIN;
use pitch_text::Command;
use std::alloc::Global;
use std::process::Abort;
use unit_packets::DatagramList;
use venue_end::{Account, VenueEnd, VenueSetup};

/// A unit whose proxy keeps eight messages, and accepts one request a second.
pub(crate) fn setup(unit: u8) -> VenueSetup
    ensures { result.kept ≡ 8 }
{
    VenueSetup {
        unit,
        account: Account {
            sub: *b"0001",
            user: *b"FEED",
            password: *b"PITCH     ",
        },
        kept: 8,
        second: 1,
        minute: 9,
        day: 9,
    }
}

/// An end of unit 1.
pub(crate) fn made(rt: &impl Abort, alloc: Global) -> VenueEnd {
    VenueEnd::make(alloc, &setup(1)).expect(rt, "memory")
}

// The seconds 33 and 34 as messages 1 and 2, and the second alone.
pub(crate) const BOTH: &[u8] = b"\x14\0\x02\x01\x01\0\0\0\x06\x20\x21\0\0\0\x06\x20\x22\0\0\0";

pub(crate) const RESENT: &[u8] = b"\x0e\0\x01\x01\x02\0\0\0\x06\x20\x22\0\0\0";

pub(crate) const LOGGED_IN: &[u8] = b"\x0b\0\x01\0\0\0\0\0\x03\x02A";

// Asks for message 2.
pub(crate) const REQUEST: &[u8] = b"\x11\0\x01\0\0\0\0\0\x09\x03\x01\x02\0\0\0\x01\0";

// Whether this is the only datagram.
pub(crate) fn is_alone(lines: &DatagramList, bytes: &[u8]) -> bool {
    match lines.as_slice() {
        [datagram] => datagram.bytes() == bytes,
        _ => false,
    }
}

// Two messages are sent in one datagram.
fn sends_two(rt: &impl Abort, alloc: Global, end: &mut VenueEnd) {
    assert!(rt; end.accept(&Command::Time { second: 33 }) == Ok(1));
    assert!(rt; end.accept(&Command::Time { second: 34 }) == Ok(2));
    let mut lines = DatagramList::make(alloc);
    assert!(rt; end.flush(&mut lines) == Ok(1));
    assert!(rt; is_alone(&lines, BOTH));
}

// A client logs in and asks for the second of them, and the reply has this status.
fn replies(rt: &impl Abort, end: &mut VenueEnd, id: u32, status: u8, line: &mut DatagramList) {
    end.connect_proxy(id).expect(rt, "memory");
    end.take_proxy(id, LOGIN, line).expect(rt, "memory");
    assert!(rt; end.said_by_proxy(id) == LOGGED_IN);
    end.put_by_proxy(id, LOGGED_IN.len());
    end.take_proxy(id, REQUEST, line).expect(rt, "memory");
    let reply = [18, 0, 1, 0, 0, 0, 0, 0, 10, 4, 1, 2, 0, 0, 0, 1, 0, status];
    assert!(rt; end.said_by_proxy(id) == reply.as_slice());
}

// A client asks for a message, and another one for it too.
#[test]
fn a_gap_is_answered_on_the_gap_line(rt: HostRuntime) {
    let mut end = made(&rt, rt.alloc());
    sends_two(&rt, rt.alloc(), &mut end);
    let mut line = DatagramList::make(rt.alloc());
    replies(&rt, &mut end, 4, b'A', &mut line);
    replies(&rt, &mut end, 5, b'S', &mut line);
    assert!(rt; is_alone(&line, RESENT));
    end.cut_proxy(4);
    assert!(rt; end.said_by_proxy(4).is_empty());
}

// What a Spin Server says to its session, all of which is then put.
fn says(rt: &impl Abort, end: &mut VenueEnd, said: &[u8]) {
    assert!(rt; end.said_by_spin(9) == said);
    end.put_by_spin(9, said.len());
}

// A client logs in, is told of the image of all messages, and asks for it.
fn asks_for_an_image(rt: &impl Abort, end: &mut VenueEnd) {
    end.connect_spin(9).expect(rt, "memory");
    end.take_spin(9, SPIN_LOGIN).expect(rt, "memory");
    says(rt, end, b"\x0b\0\x01\x01\0\0\0\0\x03\x02A");
    assert!(rt; end.advertise() == Ok(1));
    says(rt, end, b"\x0e\0\x01\x01\0\0\0\0\x06\x80\x01\0\0\0");
    let request = b"\x0e\0\x01\x01\0\0\0\0\x06\x81\x01\0\0\0";
    end.take_spin(9, request).expect(rt, "memory");
    says(
        rt,
        end,
        b"\x13\0\x01\x01\0\0\0\0\x0b\x82\x01\0\0\0\0\0\0\0A",
    );
}

// It is sent the image, block by block, and then that it has finished.
fn is_sent_the_image(rt: &impl Abort, end: &mut VenueEnd) {
    assert!(rt; end.pump_spin(9) == Ok(true));
    says(rt, end, b"\x0e\0\x01\x01\0\0\0\0\x06\x20\x21\0\0\0");
    assert!(rt; end.pump_spin(9) == Ok(false));
    says(rt, end, b"\x0e\0\x01\x01\0\0\0\0\x06\x83\x01\0\0\0");
    assert!(rt; end.pump_spin(9) == Ok(false));
}

#[test]
fn an_image_is_pumped_by_parts(rt: HostRuntime) {
    let mut end = made(&rt, rt.alloc());
    assert!(rt; end.accept(&Command::Time { second: 33 }) == Ok(1));
    asks_for_an_image(&rt, &mut end);
    end.second().expect(&rt, "memory");
    is_sent_the_image(&rt, &mut end);
    end.cut_spin(9);
    assert!(rt; end.said_by_spin(9).is_empty());
    drop(end);
}
