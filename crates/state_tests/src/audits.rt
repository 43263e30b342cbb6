//! Audits: verdicts on reports, a gap in a log, and inputs that are refused.

use run_audit::{Audit, AuditError, AuditFault, FoundGap, InputError, Verdict, audit_input};
use std::alloc::Global;
use std::process::Abort;
use unit_packets::{BlockError, BlockFault, view_block};

// The time 34200 of unit 1, as its first message and as its second.
const FIRST: &[u8] = b"\x0e\0\x01\x01\x01\0\0\0\x06\x20\x98\x85\0\0";

const SECOND: &[u8] = b"\x0e\0\x01\x01\x02\0\0\0\x06\x20\x98\x85\0\0";

// An order and a trading status, as its second message and its third.
const ORDER_AND_STATUS: &[u8] =
    b"\x34\0\x02\x01\x02\0\0\0\x1a\x22\0\0\0\0\x05\0\0\0\0\0\0\0B\x64\0IBM   \xe8\x03\x01\x12\x31\0\0\0\0IBM     H0  ";

// A block without messages, whose sequence does not matter.
const HEARTBEAT: &[u8] = b"\x08\0\0\x01\x09\0\0\0";

// Reports, and what is said of them where only the first message was logged.
const REPORTS: [(&str, Verdict); 9] = [
    (
        "book unit 1 at 1 second 34200 orders 0\n",
        Verdict::Yes { books: 1 },
    ),
    (
        "book unit 1 at 1 second 34200 orders 0",
        Verdict::Yes { books: 1 },
    ),
    (
        "book unit 1 at 1 second 34200 orders 1\n",
        Verdict::No { line: 1 },
    ),
    (
        "book unit 1 at 2 second 34200 orders 0\n",
        Verdict::No { line: 1 },
    ),
    (
        "book unit 1 at 1 second 34200 orders 0\norder 5 B 100 IBM 10.0000\n",
        Verdict::No { line: 2 },
    ),
    ("", Verdict::Yes { books: 0 }),
    (
        "\nnone\nbook unit 7 at 0 second - orders 0\nbook unit 1 at 0 second - orders 0\n",
        Verdict::Yes { books: 2 },
    ),
    (
        "book unit 1 at 1 second 34200 orders 0\nx\nbook unit 01 at 0 second - orders 0\n",
        Verdict::No { line: 3 },
    ),
    ("\nstatus IBM H 0\n", Verdict::No { line: 2 }),
];

// Reports, and what is said of them where all three messages were logged.
const LONG_REPORTS: [(&str, Verdict); 6] = [
    (
        "book unit 1 at 3 second 34200 orders 1\norder 5 B 100 IBM 10.0000\nstatus IBM H 0\nbook unit 1 at 2 second 34200 orders 1\norder 5 B 100 IBM 10.0000\nbook unit 1 at 3 second 34200 orders 1\norder 5 B 100 IBM 10.0000\nstatus IBM H 0\n",
        Verdict::Yes { books: 3 },
    ),
    (
        "current 3\nbook unit 1 at 3 second 34200 orders 1\norder 5 B 101 IBM 10.0000\nstatus IBM H 0\n",
        Verdict::No { line: 3 },
    ),
    (
        "book unit 1 at 3 second 34200 orders 1\norder 5 B 100 IBM 10.0000\nstatus IBM T 0\n",
        Verdict::No { line: 3 },
    ),
    (
        "book unit 1 at 3 second 34200 orders 1\norder 5 B 100 IBM 10.0000\n",
        Verdict::No { line: 3 },
    ),
    (
        "book unit 1 at 3 second 34200 orders 1",
        Verdict::No { line: 2 },
    ),
    (
        "book unit 1 at 1 second 34200 orders 0\norder 5 B 100 IBM 10.0000\n",
        Verdict::No { line: 2 },
    ),
];

// Logs a block, and answers why it is refused.
fn log_one(rt: &impl Abort, alloc: Global, audit: &mut Audit, bytes: &[u8]) -> Option<AuditError> {
    let view = view_block(bytes).expect(rt, "a block");
    let block = view.to_block(alloc).expect(rt, "memory");
    audit.log(&block).err()
}

// Logs blocks one after the other, up to the first that is refused.
fn log_all(
    rt: &impl Abort,
    alloc: Global,
    audit: &mut Audit,
    blocks: &[&[u8]],
) -> Option<AuditError> {
    for bytes in blocks {
        let error = log_one(rt, alloc, audit, bytes);
        if error.is_some() {
            return error;
        }
    }
    None
}

// Whether each report has its verdict.
fn are_judged(audit: &Audit, reports: &[(&str, Verdict)]) -> bool {
    reports.iter().all(|(text, verdict)| {
        text.len() < 1000 && audit.report(text.as_bytes()) == Ok(*verdict)
    })
}

// The blocks are logged up to this error, and then each report has its verdict.
fn judges(
    rt: &impl Abort,
    alloc: Global,
    blocks: &[&[u8]],
    error: Option<AuditError>,
    reports: &[(&str, Verdict)],
) {
    let mut audit = Audit::make(alloc);
    assert!(rt; log_all(rt, alloc, &mut audit, blocks) == error);
    assert!(rt; are_judged(&audit, reports));
}

#[test]
fn reports_of_a_log_of_one_block(rt: HostRuntime) {
    judges(&rt, rt.alloc(), &[FIRST], None, &REPORTS);
}

#[test]
fn reports_with_orders_and_statuses(rt: HostRuntime) {
    let blocks = [FIRST, HEARTBEAT, ORDER_AND_STATUS];
    judges(&rt, rt.alloc(), &blocks, None, &LONG_REPORTS);
}

// A report of an empty log.
const EMPTY: [(&str, Verdict); 1] = [(
    "book unit 1 at 0 second - orders 0\n",
    Verdict::Yes { books: 1 },
)];

const TOO_LATE: AuditError = AuditError::Gap {
    sequence: 2,
    next: 1,
};

const AGAIN: AuditError = AuditError::Gap {
    sequence: 1,
    next: 2,
};

#[test]
fn a_gap_is_not_logged(rt: HostRuntime) {
    judges(&rt, rt.alloc(), &[SECOND], Some(TOO_LATE), &EMPTY);
    judges(&rt, rt.alloc(), &[FIRST, FIRST], Some(AGAIN), &REPORTS);
}

// What is said of an input: how many bytes its log is said to have, its log and its report.
fn said_of(
    rt: &impl Abort,
    alloc: Global,
    size: u8,
    log: &[u8],
    text: &str,
) -> Result<Verdict, InputError> {
    let mut bytes = Vec::new(alloc);
    bytes
        .extend_from_slice(&[size, 0, 0, 0, 0, 0, 0, 0])
        .expect(rt, "memory");
    bytes.extend_from_slice(log).expect(rt, "memory");
    bytes
        .extend_from_slice(text.as_bytes())
        .expect(rt, "memory");
    assert!(rt; bytes.len() < 1000);
    audit_input(alloc, &bytes)
}

const REPORT: &str = "book unit 1 at 1 second 34200 orders 0";

#[test]
fn inputs_are_judged(rt: HostRuntime) {
    let said = said_of(&rt, rt.alloc(), 14, FIRST, REPORT);
    assert!(rt; said == Ok(Verdict::Yes { books: 1 }));
}

// Inputs by the size of their log, the log, and what is wrong with them.
const FAULTY: [(u8, &[u8], AuditFault); 4] = [
    (
        14,
        SECOND,
        AuditFault::Gap {
            place: 8,
            gap: FoundGap {
                sequence: 2,
                next: 1,
            },
        },
    ),
    (15, FIRST, AuditFault::CutLog { has: 14, needs: 15 }),
    (
        13,
        FIRST,
        AuditFault::Faulty(BlockFault {
            place: 8,
            error: BlockError::Truncated { has: 13, needs: 14 },
        }),
    ),
    // a log that is cut is judged before its blocks
    (
        255,
        SECOND,
        AuditFault::CutLog {
            has: 14,
            needs: 255,
        },
    ),
];

fn are_refused(rt: &impl Abort, alloc: Global, faulty: &[(u8, &[u8], AuditFault)]) {
    for (size, log, fault) in faulty {
        let said = said_of(rt, alloc, *size, log, "");
        assert!(rt; said == Err(InputError::Fault(*fault)));
    }
}

#[test]
fn faulty_inputs_are_refused(rt: HostRuntime) {
    are_refused(&rt, rt.alloc(), &FAULTY);
    let fault = AuditFault::NoSize { has: 7 };
    assert!(rt; audit_input(rt.alloc(), &[0; 7]) == Err(InputError::Fault(fault)));
}
