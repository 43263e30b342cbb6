//! Clients at the doors: the places from 0 and from 128 on are those of the proxies of units 2 and
//! 1, and those from 192 on of the Spin Server of unit 1.

use crate::runs::{BOTH, SECOND, Told, are_told, run};
use scripted_nets::NetStep;
use std::process::Abort;
use std::rt::HostRuntime;

// To and from a proxy: a login, one with another password, a request for message 2 of unit 1, and
// the replies.
pub(crate) const LOGIN: &[u8] = b"\x1e\0\x01\0\0\0\0\0\x16\x010001FEED  PITCH     ";

const OTHER_LOGIN: &[u8] = b"\x1e\0\x01\0\0\0\0\0\x16\x010001FEED  PASTE     ";

const LOGGED_IN: &[u8] = b"\x0b\0\x01\0\0\0\0\0\x03\x02A";

const REFUSED: &[u8] = b"\x0b\0\x01\0\0\0\0\0\x03\x02N";

const REQUEST: &[u8] = b"\x11\0\x01\0\0\0\0\0\x09\x03\x01\x02\0\0\0\x01\0";

const REPLY: &[u8] = b"\x12\0\x01\0\0\0\0\0\x0a\x04\x01\x02\0\0\0\x01\0A";

// No block has 7 bytes.
pub(crate) const RUBBISH: &[u8] = b"\x07\0\0\0\0\0\0\0";

// To and from a Spin Server: a login and its reply; the image of one message is there, is asked
// for, is accepted in two parts, comes as the second 33, and has finished.
pub(crate) const SPIN_LOGIN: &[u8] = b"\x1e\0\x01\x01\0\0\0\0\x16\x010001FEED  PITCH     ";

const SPIN_LOGGED_IN: &[u8] = b"\x0b\0\x01\x01\0\0\0\0\x03\x02A";

const THERE: &[u8] = b"\x0e\0\x01\x01\0\0\0\0\x06\x80\x01\0\0\0";

pub(crate) const ASKED: &[u8] = b"\x0e\0\x01\x01\0\0\0\0\x06\x81\x01\0\0\0";

const ACCEPTED_FIRST: &[u8] = b"\x13\0\x01\x01\0";

const ACCEPTED_REST: &[u8] = b"\0\0\0\x0b\x82\x01\0\0\0\0\0\0\0A";

const IMAGE: &[u8] = b"\x0e\0\x01\x01\0\0\0\0\x06\x20\x21\0\0\0";

const FINISHED: &[u8] = b"\x0e\0\x01\x01\0\0\0\0\x06\x83\x01\0\0\0";

#[test]
fn a_gap_goes_out_on_the_gap_line(rt: HostRuntime) {
    let steps = [
        NetStep::Turn,
        NetStep::Types(b"1 time 33\n1 time 34\n"),
        NetStep::Knocks(128),
        NetStep::Brings(128, LOGIN),
        NetStep::Turn,
        NetStep::Brings(128, REQUEST),
    ];
    let came = run(&rt, &steps, 0);
    assert!(rt; came.answer == Ok(()));
    let sent = [
        Told::Waits,
        Told::Says(3, BOTH),
        Told::Says(4, BOTH),
        Told::Waits,
        Told::Says(5, SECOND),
        Told::Waits,
    ];
    assert!(rt; are_told(&came.sent, &sent));
    let put = [
        Told::Waits,
        Told::Says(128, LOGGED_IN),
        Told::Waits,
        Told::Says(128, REPLY),
        Told::Waits,
    ];
    assert!(rt; are_told(&came.put, &put));
    drop(came);
}

// What happens, and what is put and closed.
type Case = (&'static [NetStep], &'static [Told]);

// A client is told of the image that a second advertised, asks for it, and gets it. There is room
// for five bytes of the response at first.
const SPUN: Case = (
    &[
        NetStep::Turn,
        NetStep::Types(b"1 time 33\n"),
        NetStep::Knocks(192),
        NetStep::Brings(192, SPIN_LOGIN),
        NetStep::Second,
        NetStep::Turn,
        NetStep::Brings(192, ASKED),
        NetStep::HasRoom(192, 5),
    ],
    &[
        Told::Waits,
        Told::Says(192, SPIN_LOGGED_IN),
        Told::Waits,
        Told::Says(192, THERE),
        Told::Waits,
        Told::Says(192, ACCEPTED_FIRST),
        Told::Says(192, ACCEPTED_REST),
        Told::Says(192, IMAGE),
        Told::Says(192, FINISHED),
        Told::Waits,
    ],
);

// One that sends rubbish is closed, one that may not log in is told so and closed, and one that
// ends its connection is not; the next one is let in.
const SENT_AWAY: Case = (
    &[
        NetStep::Turn,
        NetStep::Knocks(0),
        NetStep::Brings(0, RUBBISH),
        NetStep::Turn,
        NetStep::Knocks(0),
        NetStep::Brings(0, OTHER_LOGIN),
        NetStep::Turn,
        NetStep::Knocks(0),
        NetStep::Ends(0),
        NetStep::Turn,
        NetStep::Knocks(0),
        NetStep::Brings(0, LOGIN),
    ],
    &[
        Told::Waits,
        Told::Closes(0),
        Told::Waits,
        Told::Says(0, REFUSED),
        Told::Closes(0),
        Told::Waits,
        Told::Waits,
        Told::Says(0, LOGGED_IN),
        Told::Waits,
    ],
);

// One that has no room for five seconds is closed, and the next one is let in.
const STALLED: Case = (
    &[
        NetStep::Turn,
        NetStep::Knocks(0),
        NetStep::Brings(0, LOGIN),
        NetStep::HasRoom(0, 0),
        NetStep::Second,
        NetStep::HasRoom(0, 0),
        NetStep::Second,
        NetStep::HasRoom(0, 0),
        NetStep::Second,
        NetStep::HasRoom(0, 0),
        NetStep::Second,
        NetStep::HasRoom(0, 0),
        NetStep::Second,
        NetStep::Turn,
        NetStep::Knocks(0),
        NetStep::Brings(0, LOGIN),
    ],
    &[
        Told::Waits,
        Told::Waits,
        Told::Waits,
        Told::Waits,
        Told::Waits,
        Told::Waits,
        Told::Closes(0),
        Told::Waits,
        Told::Says(0, LOGGED_IN),
        Told::Waits,
    ],
);

// Each of these is put, and the run goes on.
fn all_are_put<R: Abort + AllocGlobal>(rt: &R, cases: &[Case]) {
    for (steps, told) in cases {
        let came = run(rt, steps, 0);
        assert!(rt; came.answer == Ok(()));
        assert!(rt; are_told(&came.put, told));
        drop(came);
    }
}

#[test]
fn an_image_is_put_block_by_block(rt: HostRuntime) {
    all_are_put(&rt, &[SPUN]);
}

#[test]
fn clients_are_sent_away_and_the_run_goes_on(rt: HostRuntime) {
    all_are_put(&rt, &[SENT_AWAY, STALLED]);
}
