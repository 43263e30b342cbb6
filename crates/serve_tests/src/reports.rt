//! What is reported once a run is over, and where it is not.

use crate::runs::{Reported, run_reporting};
use live_venue::{InputFault, ReportError, ServeError};
use scripted_nets::NetStep;
use std::process::Abort;
use std::rt::HostRuntime;
use text_lines::TextCause;

// What is typed. Unit 2, which has the index 0, accepts nothing.
const TYPED: &[NetStep] = &[
    NetStep::Turn,
    NetStep::Types(b"1 time 33\n1 add 7 B 100 ZVZZT 1.00\n1 time 34\n"),
];

const FAULTY: &[NetStep] = &[
    NetStep::Turn,
    NetStep::Types(b"1 time 33\n1 add 7 B 100 ZVZZT 1.00\n1 time 34\n1 tame\n1 clear\n"),
];

// The books then.
const BOOKS: &[u8] = b"book unit 1 at 3 second 34 orders 1\norder 7 B 100 ZVZZT 1.0000\n\
book unit 2 at 0 second - orders 0\n";

const FAULT: InputFault = InputFault::Bad {
    line: 4,
    column: 3,
    cause: TextCause::BadWord,
};

// What a run is answered whose report has no room at the put of this number.
fn answers<R: Abort + AllocGlobal>(
    rt: &R,
    steps: &[NetStep],
    failing: u64,
    answer: Result<(), ReportError>,
    books: &[u8],
) {
    let came = run_reporting(rt, steps, 0, failing);
    assert!(rt; came.answer == answer);
    assert!(rt; came.report.as_slice() == books);
    drop(came);
}

#[test]
fn the_books_stand_by_rising_unit(rt: HostRuntime) {
    answers(&rt, TYPED, 0, Ok(()), BOOKS);
}

#[test]
fn they_do_at_a_fault_of_the_input_too(rt: HostRuntime) {
    let answer = Err(ReportError::Serve(ServeError::Input(FAULT)));
    answers(&rt, FAULTY, 0, answer, BOOKS);
}

#[test]
fn a_sink_that_fails_has_a_prefix(rt: HostRuntime) {
    // Twenty bytes a put.
    answers(&rt, TYPED, 3, Err(ReportError::Write(None)), &BOOKS[..40]);
    answers(&rt, FAULTY, 1, Err(ReportError::Write(Some(FAULT))), b"");
}

#[test]
fn nothing_is_reported_of_a_net_that_failed(rt: HostRuntime) {
    let Reported { answer, report } = run_reporting(&rt, TYPED, 2, 0);
    assert!(rt; answer == Err(ReportError::Serve(ServeError::Net)));
    assert!(rt; report.is_empty());
    drop(report);
}
