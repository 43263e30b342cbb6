//! What ends a run. What was accepted before it has gone out.

use crate::runs::{FIRST, SECOND, Told, are_told, run, setup_of};
use live_venue::{InputFault, ServeError};
use scripted_nets::NetStep;
use std::process::Abort;
use std::rt::HostRuntime;
use text_lines::TextCause;
use venue_core::VenueError;

// An order as message 1 of unit 1, in a datagram.
const ORDER: &[u8] =
    b"\x22\0\x01\x01\x01\0\0\0\x1a\x22\0\0\0\0\x07\0\0\0\0\0\0\0B\x64\0ZVZZT \x64\0\x01";

// What happens; the fault of what is typed; and what goes out.
type Case = (&'static [NetStep], InputFault, &'static [Told]);

const NO_COMMAND: Case = (
    &[
        NetStep::Turn,
        NetStep::Types(b"1 time 33\n1 ti"),
        NetStep::Types(b"me 34\n1 tame 35\n"),
    ],
    InputFault::Bad {
        line: 3,
        column: 3,
        cause: TextCause::BadWord,
    },
    &[
        Told::Waits,
        Told::Says(3, FIRST),
        Told::Says(4, FIRST),
        Told::Says(3, SECOND),
        Told::Says(4, SECOND),
    ],
);

const NO_UNIT: Case = (
    &[
        NetStep::Turn,
        NetStep::Types(b"1 time 33\n3 time 34"),
        NetStep::Turn,
        NetStep::EndsInput,
    ],
    InputFault::NoUnit(2),
    &[
        Told::Waits,
        Told::Says(3, FIRST),
        Told::Says(4, FIRST),
        Told::Waits,
    ],
);

const REFUSED: Case = (
    &[
        NetStep::Turn,
        NetStep::Types(b"1 add 7 B 100 ZVZZT 1.00\n"),
        NetStep::Types(b"1 add 7 B 100 ZVZZT 1.00\n1 time 33\n"),
    ],
    InputFault::Refused {
        line: 2,
        error: VenueError::KnownId,
    },
    &[Told::Waits, Told::Says(3, ORDER), Told::Says(4, ORDER)],
);

fn all_end<R: Abort + AllocGlobal>(rt: &R, cases: &[Case]) {
    for (steps, fault, told) in cases {
        let came = run(rt, steps, 0);
        assert!(rt; came.answer == Err(ServeError::Input(*fault)));
        assert!(rt; are_told(&came.sent, told));
        drop(came);
    }
}

#[test]
fn a_fault_of_the_input_ends_the_run(rt: HostRuntime) {
    all_end(&rt, &[NO_COMMAND, NO_UNIT, REFUSED]);
}

#[test]
fn a_fault_of_the_net_ends_the_run(rt: HostRuntime) {
    // The first wait; the first read; and the second read, behind the piece and its two datagrams.
    let steps = [NetStep::Turn, NetStep::Types(b"1 time 33\n")];
    let told = [Told::Waits, Told::Says(3, FIRST), Told::Says(4, FIRST)];
    for (failing, count) in [(1, 1), (2, 1), (5, 3)] {
        let came = run(&rt, &steps, failing);
        assert!(rt; came.answer == Err(ServeError::Net));
        assert!(rt; are_told(&came.sent, &told[..count]));
        drop(came);
    }
}

#[test]
fn a_proxy_keeps_messages(rt: HostRuntime) {
    for (kept, is) in [(0, false), (1, true), (65536, true), (65537, false)] {
        assert!(rt; setup_of(&rt, kept).is_some() == is);
    }
}
