//! A venue that serves through a net which harms: of the units 2 and 1 the lines are 0 to 2 and 3
//! to 5, and the places from 0 and from 128 on are those of their proxies.

use crate::kept_net::{KeptNet, Said};
use crate::runs::{FIRST, SECOND, Told, are_told, is_told, setup_of};
use harmed_venue::{Harm, HarmedVenue, Shares};
use live_venue::serve;
use scripted_nets::{NetStep, ScriptedVenue};
use std::process::Abort;
use std::rt::HostRuntime;

// Heartbeats: the next message of unit 2 is 1, and that of unit 1 is 3.
const BEAT_2: &[u8] = b"\x08\0\0\x02\x01\0\0\0";

const BEAT_1: &[u8] = b"\x08\0\0\x01\x03\0\0\0";

// To and from a proxy: a login, and the reply.
const LOGIN: &[u8] = b"\x1e\0\x01\0\0\0\0\0\x16\x010001FEED  PITCH     ";

const LOGGED_IN: &[u8] = b"\x0b\0\x01\0\0\0\0\0\x03\x02A";

const NONE: Shares = Shares { a: 0, b: 0, gap: 0 };

// Nothing is harmed.
const LEFT_ALONE: Harm = Harm {
    number: 1,
    lose: NONE,
    repeat: NONE,
    swap: NONE,
    cut: None,
    lines: 6,
    places: 256,
};

// Two messages of unit 1, each in a turn of its own, and a second.
const STEPS: &[NetStep] = &[
    NetStep::Turn,
    NetStep::Types(b"1 time 33\n"),
    NetStep::Turn,
    NetStep::Types(b"1 time 34\n"),
    NetStep::Second,
];

// What goes out, and what else than waits is done to clients.
#[derive(Clone, Copy)]
struct Case {
    harm: Harm,
    steps: &'static [NetStep],
    sent: Option<&'static [Told]>,
    put: &'static [Told],
}

// Whether these were put and closed in this order, with waits between them.
fn are_put(said: &[Said], told: &[Told]) -> bool {
    let mut next = 0;
    for it in said {
        if matches!(it, Said::Waits) {
            continue;
        }
        match told.get(next) {
            Some(wanted) if is_told(it, *wanted) => next += 1,
            _ => return false,
        }
    }
    next == told.len()
}

// Whether a run through such a net comes to its end, and this goes out and is put below it.
fn is_run<R: Abort + AllocGlobal>(rt: &R, case: &Case) -> bool {
    let setup = setup_of(rt, 8).expect(rt, "a setup");
    let failing = Vec::new(rt.alloc());
    let net = ScriptedVenue::make(rt.alloc(), case.steps, failing).expect(rt, "memory");
    let kept = KeptNet::make(rt, net);
    let mut harmed = HarmedVenue::make(rt.alloc(), case.harm, kept).expect(rt, "memory");
    let answer = serve(rt.alloc(), &setup, &mut harmed);
    drop(setup);
    let kept = harmed.net();
    let sent = match case.sent {
        Some(sent) => are_told(&kept.sent, sent),
        None => true,
    };
    let is_right = sent && are_put(&kept.put, case.put);
    drop(harmed);
    answer == Ok(()) && is_right
}

// Where nothing is harmed each message goes out on both lines of unit 1, and then the heartbeats of
// both units.
const ALONE: Case = Case {
    harm: LEFT_ALONE,
    steps: STEPS,
    sent: Some(&[
        Told::Waits,
        Told::Says(3, FIRST),
        Told::Says(4, FIRST),
        Told::Waits,
        Told::Says(3, SECOND),
        Told::Says(4, SECOND),
        Told::Waits,
        Told::Says(0, BEAT_2),
        Told::Says(1, BEAT_2),
        Told::Says(3, BEAT_1),
        Told::Says(4, BEAT_1),
        Told::Waits,
    ]),
    put: &[],
};

// Lines A are lost.
const LOST: Case = Case {
    harm: Harm {
        number: 1,
        lose: Shares {
            a: 100,
            b: 0,
            gap: 0,
        },
        repeat: NONE,
        swap: NONE,
        cut: None,
        lines: 6,
        places: 256,
    },
    steps: STEPS,
    sent: Some(&[
        Told::Waits,
        Told::Says(4, FIRST),
        Told::Waits,
        Told::Says(4, SECOND),
        Told::Waits,
        Told::Says(1, BEAT_2),
        Told::Says(4, BEAT_1),
        Told::Waits,
    ]),
    put: &[],
};

// Lines B have each datagram twice.
const TWICE: Case = Case {
    harm: Harm {
        number: 1,
        lose: NONE,
        repeat: Shares {
            a: 0,
            b: 100,
            gap: 0,
        },
        swap: NONE,
        cut: None,
        lines: 6,
        places: 256,
    },
    steps: STEPS,
    sent: Some(&[
        Told::Waits,
        Told::Says(3, FIRST),
        Told::Says(4, FIRST),
        Told::Says(4, FIRST),
        Told::Waits,
        Told::Says(3, SECOND),
        Told::Says(4, SECOND),
        Told::Says(4, SECOND),
        Told::Waits,
        Told::Says(0, BEAT_2),
        Told::Says(1, BEAT_2),
        Told::Says(1, BEAT_2),
        Told::Says(3, BEAT_1),
        Told::Says(4, BEAT_1),
        Told::Says(4, BEAT_1),
        Told::Waits,
    ]),
    put: &[],
};

// On lines A the second message goes out before the first, and the heartbeats at the end.
const SWAPPED: Case = Case {
    harm: Harm {
        number: 1,
        lose: NONE,
        repeat: NONE,
        swap: Shares {
            a: 100,
            b: 0,
            gap: 0,
        },
        cut: None,
        lines: 6,
        places: 256,
    },
    steps: STEPS,
    sent: Some(&[
        Told::Waits,
        Told::Says(4, FIRST),
        Told::Waits,
        Told::Says(3, SECOND),
        Told::Says(3, FIRST),
        Told::Says(4, SECOND),
        Told::Waits,
        Told::Says(1, BEAT_2),
        Told::Says(4, BEAT_1),
        Told::Waits,
        Told::Says(0, BEAT_2),
        Told::Says(3, BEAT_1),
    ]),
    put: &[],
};

// A client of the proxy of unit 1 is cut after a second, and the next one at its place is served.
const CUT: Case = Case {
    harm: Harm {
        number: 1,
        lose: NONE,
        repeat: NONE,
        swap: NONE,
        cut: Some(1),
        lines: 6,
        places: 256,
    },
    steps: &[
        NetStep::Turn,
        NetStep::Knocks(128),
        NetStep::Brings(128, LOGIN),
        NetStep::Second,
        NetStep::Turn,
        NetStep::Knocks(128),
        NetStep::Brings(128, LOGIN),
    ],
    sent: None,
    put: &[
        Told::Says(128, LOGGED_IN),
        Told::Closes(128),
        Told::Says(128, LOGGED_IN),
    ],
};

#[test]
fn a_venue_is_harmed_as_it_is_told(rt: HostRuntime) {
    assert!(rt; is_run(&rt, &ALONE));
    assert!(rt; is_run(&rt, &LOST));
    assert!(rt; is_run(&rt, &TWICE));
    assert!(rt; is_run(&rt, &SWAPPED));
    assert!(rt; is_run(&rt, &CUT));
}
