//! What goes out on the lines: those of unit 2 are 0 to 2, those of unit 1 are 3 to 5.

use crate::runs::{BOTH, FIRST, SECOND, Told, are_told, run};
use scripted_nets::NetStep;
use std::process::Abort;
use std::rt::HostRuntime;

// The second 35 as message 1 of unit 2.
const OF_THE_OTHER: &[u8] = b"\x0e\0\x01\x02\x01\0\0\0\x06\x20\x23\0\0\0";

// Heartbeats: the next message of unit 2 is 1, and that of unit 1 is 3.
const BEAT_2: &[u8] = b"\x08\0\0\x02\x01\0\0\0";

const BEAT_1: &[u8] = b"\x08\0\0\x01\x03\0\0\0";

// What is typed in some turns, and what goes out.
type Case = (&'static [NetStep], &'static [Told]);

// A line that is not whole is not heard; the end of the input ends it.
const CUT: Case = (
    &[
        NetStep::Turn,
        NetStep::Types(b"1 time 33\n1 ti"),
        NetStep::Turn,
        NetStep::Types(b"me 34\n2 time 35"),
        NetStep::Turn,
        NetStep::EndsInput,
    ],
    &[
        Told::Waits,
        Told::Says(3, FIRST),
        Told::Says(4, FIRST),
        Told::Waits,
        Told::Says(3, SECOND),
        Told::Says(4, SECOND),
        Told::Waits,
        Told::Says(0, OF_THE_OTHER),
        Told::Says(1, OF_THE_OTHER),
        Told::Waits,
    ],
);

// The lines of one piece go out in one datagram. Those of unit 2 are silent until a second passes.
const BEATEN: Case = (
    &[
        NetStep::Turn,
        NetStep::Types(b"1 ti"),
        NetStep::Turn,
        NetStep::Types(b"me 33\n1 time 34\n"),
        NetStep::Second,
    ],
    &[
        Told::Waits,
        Told::Waits,
        Told::Says(3, BOTH),
        Told::Says(4, BOTH),
        Told::Waits,
        Told::Says(0, BEAT_2),
        Told::Says(1, BEAT_2),
        Told::Says(3, BEAT_1),
        Told::Says(4, BEAT_1),
        Told::Waits,
    ],
);

// Each of these goes out, until there is nothing more to wait for.
fn all_go_out<R: Abort + AllocGlobal>(rt: &R, cases: &[Case]) {
    for (steps, told) in cases {
        let came = run(rt, steps, 0);
        assert!(rt; came.answer == Ok(()));
        assert!(rt; are_told(&came.sent, told));
        drop(came);
    }
}

#[test]
fn each_unit_has_its_lines(rt: HostRuntime) {
    all_go_out(&rt, &[CUT, BEATEN]);
}
