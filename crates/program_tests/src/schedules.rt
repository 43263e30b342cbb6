//! Schedules, and what the program writes of them.
ghost use Rattle.std.specs.Prelude.{◌<◌};

use crate::runs::ends_so;
use pitch_tool::ExitStatus;
use std::alloc::Global;
use std::process::Abort;
use std::sync::Wait;
use std::thread::Threads;
use std::time::Clock;

// The third message comes before the second.
const OUT_OF_ORDER: (&[u8], &str) = (
    b"1 add 1 B 100 IBM 10.00\n\
    1 flush\n\
    1 add 2 B 100 IBM 10.01\n\
    1 flush\n\
    1 add 3 S 50 IBM 10.05\n\
    1 flush\n\
    1 a 1\n\
    1 a 3\n\
    1 show\n\
    1 a 2\n\
    1 quote IBM\n",
    "1 1 accepted 1; silent\n\
    2 1 sent 1; silent\n\
    3 1 accepted 2; silent\n\
    4 1 sent 1; silent\n\
    5 1 accepted 3; silent\n\
    6 1 sent 1; silent\n\
    7 1 heard 1; current 1\n\
    8 1 heard 1; behind 1 of 3\n\
    9 1 shown; behind 1 of 3\n\
    book unit 1 at 1 second - orders 1\n\
    order 1 B 100 IBM 10.0000\n\
    lines a 2/2 b 0/0 g 0/0\n\
    10 1 heard 1; current 3\n\
    11 1 quote IBM 10.0100 100 10.0500 50; current 3\n",
);

// A message comes on both lines, and once more on the first.
const ON_BOTH_LINES: (&[u8], &str) = (
    b"1 add 1 B 10 IBM 10.00\n\
    1 flush\n\
    1 a 1\n\
    1 b 1\n\
    1 a 1\n\
    1 show\n",
    "1 1 accepted 1; silent\n\
    2 1 sent 1; silent\n\
    3 1 heard 1; current 1\n\
    4 1 heard 1; current 1\n\
    5 1 heard 1; current 1\n\
    6 1 shown; current 1\n\
    book unit 1 at 1 second - orders 1\n\
    order 1 B 10 IBM 10.0000\n\
    lines a 1/2 b 0/1 g 0/0\n",
);

// Commands that the venue refuses.
const REFUSED: (&[u8], &str) = (
    b"1 add 1 B 100 IBM 10.00\n\
    1 add 1 B 1 IBM 1\n\
    1 exec 1 101 9\n\
    1 reduce 2 5\n\
    1 add 2 B 0 IBM 1\n\
    1 execat 1 40 0 7 9.99\n\
    1 add 1 S 30 IBM 10.05\n\
    1 clear\n\
    1 end\n\
    1 delete 1\n",
    "1 1 accepted 1; silent\n\
    2 1 refused known-id; silent\n\
    3 1 refused too-much 101 100; silent\n\
    4 1 refused unknown-id; silent\n\
    5 1 refused zero-quantity; silent\n\
    6 1 accepted 2; silent\n\
    7 1 accepted 3; silent\n\
    8 1 accepted 4; silent\n\
    9 1 accepted 5; silent\n\
    10 1 refused ended; silent\n",
);

// A hold of two places overflows, and is filled again.
const OVERFLOWED: (&[u8], &str) = (
    b"1 open hold=2\n\
    1 add 1 B 10 IBM 10.00\n\
    1 flush\n\
    1 add 2 B 10 IBM 10.00\n\
    1 flush\n\
    1 add 3 B 10 IBM 10.00\n\
    1 flush\n\
    1 add 4 B 10 IBM 10.00\n\
    1 flush\n\
    1 add 5 B 10 IBM 10.00\n\
    1 flush\n\
    1 add 6 B 10 IBM 10.00\n\
    1 flush\n\
    1 add 7 B 10 IBM 10.00\n\
    1 flush\n\
    1 a 1\n\
    1 a 3\n\
    1 a 5\n\
    1 a 7\n\
    1 a 6\n\
    1 a 2\n\
    1 a 3\n\
    1 a 4\n\
    1 a 5\n",
    "1 1 opened; silent\n\
    2 1 accepted 1; silent\n\
    3 1 sent 1; silent\n\
    4 1 accepted 2; silent\n\
    5 1 sent 1; silent\n\
    6 1 accepted 3; silent\n\
    7 1 sent 1; silent\n\
    8 1 accepted 4; silent\n\
    9 1 sent 1; silent\n\
    10 1 accepted 5; silent\n\
    11 1 sent 1; silent\n\
    12 1 accepted 6; silent\n\
    13 1 sent 1; silent\n\
    14 1 accepted 7; silent\n\
    15 1 sent 1; silent\n\
    16 1 heard 1; current 1\n\
    17 1 heard 1; behind 1 of 3\n\
    18 1 heard 1; behind 1 of 5\n\
    19 1 heard 1 overflow; behind 1 of 7\n\
    20 1 heard 1; behind 1 of 7\n\
    21 1 heard 1; behind 2 of 7\n\
    22 1 heard 1; behind 3 of 7\n\
    23 1 heard 1; behind 4 of 7\n\
    24 1 heard 1; current 7\n",
);

// The reply to a gap request is asked for twice, since the first is not heard.
const REPLY_LOST: (&[u8], &str) = (
    b"1 add 1 B 100 IBM 10.00\n\
    1 flush\n\
    1 add 2 B 100 IBM 10.01\n\
    1 flush\n\
    1 add 3 S 50 IBM 10.05\n\
    1 flush\n\
    1 a 1\n\
    1 a 3\n\
    1 grp open\n\
    1 grp up all\n\
    1 grp down all\n\
    1 tick\n\
    1 grp up all\n\
    1 grp down all\n\
    1 tick\n\
    1 grp up all\n\
    1 grp down all\n\
    1 g 2\n\
    1 g 3\n",
    "1 1 accepted 1; silent\n\
    2 1 sent 1; silent\n\
    3 1 accepted 2; silent\n\
    4 1 sent 1; silent\n\
    5 1 accepted 3; silent\n\
    6 1 sent 1; silent\n\
    7 1 heard 1; current 1\n\
    8 1 heard 1; behind 1 of 3\n\
    9 1 opened; behind 1 of 3\n\
    10 1 carried 30; behind 1 of 3\n\
    11 1 carried 11; behind 1 of 3\n\
    12 1 asked gap 2 1; behind 1 of 3\n\
    13 1 carried 17; behind 1 of 3\n\
    14 1 carried 18; behind 1 of 3\n\
    15 1 asked gap 2 1; behind 1 of 3\n\
    16 1 carried 17; behind 1 of 3\n\
    17 1 carried 18; behind 1 of 3\n\
    18 1 heard 1; current 3\n\
    19 1 no-datagram; current 3\n",
);

// After an image a heartbeat still tells of one message more.
const TOLD_OF_MORE: (&[u8], &str) = (
    b"1 add 1 B 10 IBM 10.00\n\
    1 add 2 B 10 IBM 10.00\n\
    1 add 3 B 10 IBM 10.00\n\
    1 add 4 B 10 IBM 10.00\n\
    1 flush\n\
    1 spin open\n\
    1 spin up all\n\
    1 advertise\n\
    1 spin down all\n\
    1 add 5 S 10 IBM 11.00\n\
    1 flush\n\
    1 add 6 S 10 IBM 11.00\n\
    1 flush\n\
    1 beat\n\
    1 a 2\n\
    1 a 4\n\
    1 tick\n\
    1 spin up all\n\
    1 spin down all\n",
    "1 1 accepted 1; silent\n\
    2 1 accepted 2; silent\n\
    3 1 accepted 3; silent\n\
    4 1 accepted 4; silent\n\
    5 1 sent 1; silent\n\
    6 1 opened; silent\n\
    7 1 carried 30; silent\n\
    8 1 advertised 4; silent\n\
    9 1 carried 25; behind 0 of 4\n\
    10 1 accepted 5; behind 0 of 4\n\
    11 1 sent 1; behind 0 of 4\n\
    12 1 accepted 6; behind 0 of 4\n\
    13 1 sent 1; behind 0 of 4\n\
    14 1 sent 1; behind 0 of 4\n\
    15 1 heard 1; behind 0 of 5\n\
    16 1 heard 1; behind 0 of 6\n\
    17 1 asked spin 4; behind 0 of 6\n\
    18 1 carried 14; behind 0 of 6\n\
    19 1 carried 145; behind 5 of 6\n",
);

// An image fills what an overflow lost.
const IMAGE_AFTER_OVERFLOW: (&[u8], &str) = (
    b"1 open hold=2\n\
    1 add 1 B 10 IBM 10.00\n\
    1 flush\n\
    1 add 2 B 10 IBM 10.00\n\
    1 flush\n\
    1 add 3 B 10 IBM 10.00\n\
    1 flush\n\
    1 add 4 B 10 IBM 10.00\n\
    1 flush\n\
    1 add 5 B 10 IBM 10.00\n\
    1 flush\n\
    1 add 6 B 10 IBM 10.00\n\
    1 flush\n\
    1 spin open\n\
    1 spin up all\n\
    1 advertise\n\
    1 add 7 B 10 IBM 10.00\n\
    1 flush\n\
    1 a 1\n\
    1 a 3\n\
    1 a 5\n\
    1 a 7\n\
    1 spin down all\n\
    1 tick\n\
    1 spin up all\n\
    1 spin down all\n",
    "1 1 opened; silent\n\
    2 1 accepted 1; silent\n\
    3 1 sent 1; silent\n\
    4 1 accepted 2; silent\n\
    5 1 sent 1; silent\n\
    6 1 accepted 3; silent\n\
    7 1 sent 1; silent\n\
    8 1 accepted 4; silent\n\
    9 1 sent 1; silent\n\
    10 1 accepted 5; silent\n\
    11 1 sent 1; silent\n\
    12 1 accepted 6; silent\n\
    13 1 sent 1; silent\n\
    14 1 opened; silent\n\
    15 1 carried 30; silent\n\
    16 1 advertised 6; silent\n\
    17 1 accepted 7; silent\n\
    18 1 sent 1; silent\n\
    19 1 heard 1; current 1\n\
    20 1 heard 1; behind 1 of 3\n\
    21 1 heard 1; behind 1 of 5\n\
    22 1 heard 1 overflow; behind 1 of 7\n\
    23 1 carried 25; behind 1 of 7\n\
    24 1 asked spin 6; behind 1 of 7\n\
    25 1 carried 14; behind 1 of 7\n\
    26 1 carried 197; current 7\n",
);

// A unit joins late by an image, whose connection is cut in its midst.
const IMAGE_CUT: (&[u8], &str) = (
    b"1 add 1 B 10 IBM 10.00\n\
    1 add 2 B 10 IBM 10.00\n\
    1 add 3 B 10 IBM 10.00\n\
    1 add 4 B 10 IBM 10.00\n\
    1 flush\n\
    1 spin open\n\
    1 spin up all\n\
    1 advertise\n\
    1 spin down all\n\
    1 add 5 S 10 IBM 11.00\n\
    1 flush\n\
    1 a 2\n\
    1 tick\n\
    1 spin up all\n\
    1 spin down 200\n\
    1 spin down 60\n\
    1 spin cut\n\
    1 spin cut\n\
    1 spin open\n\
    1 spin open\n\
    1 spin up all\n\
    1 spin down all\n\
    1 tick\n\
    1 spin up all\n\
    1 spin down all\n",
    "1 1 accepted 1; silent\n\
    2 1 accepted 2; silent\n\
    3 1 accepted 3; silent\n\
    4 1 accepted 4; silent\n\
    5 1 sent 1; silent\n\
    6 1 opened; silent\n\
    7 1 carried 30; silent\n\
    8 1 advertised 4; silent\n\
    9 1 carried 25; behind 0 of 4\n\
    10 1 accepted 5; behind 0 of 4\n\
    11 1 sent 1; behind 0 of 4\n\
    12 1 heard 1; behind 0 of 5\n\
    13 1 asked spin 4; behind 0 of 5\n\
    14 1 carried 14; behind 0 of 5\n\
    15 1 too-few 200 145; behind 0 of 5\n\
    16 1 carried 60; behind 0 of 5\n\
    17 1 cut; behind 0 of 5\n\
    18 1 not-open; behind 0 of 5\n\
    19 1 opened; behind 0 of 5\n\
    20 1 already-open; behind 0 of 5\n\
    21 1 carried 30; behind 0 of 5\n\
    22 1 carried 25; behind 0 of 5\n\
    23 1 asked spin 4; behind 0 of 5\n\
    24 1 carried 14; behind 0 of 5\n\
    25 1 carried 145; current 5\n",
);

// An image comes after its messages.
const IMAGE_STALE: (&[u8], &str) = (
    b"1 add 1 B 10 IBM 10.00\n\
    1 flush\n\
    1 add 2 B 10 IBM 10.00\n\
    1 flush\n\
    1 spin open\n\
    1 spin up all\n\
    1 advertise\n\
    1 spin down all\n\
    1 tick\n\
    1 spin up all\n\
    1 a 1\n\
    1 a 2\n\
    1 spin down all\n",
    "1 1 accepted 1; silent\n\
    2 1 sent 1; silent\n\
    3 1 accepted 2; silent\n\
    4 1 sent 1; silent\n\
    5 1 opened; silent\n\
    6 1 carried 30; silent\n\
    7 1 advertised 2; silent\n\
    8 1 carried 25; behind 0 of 2\n\
    9 1 asked spin 2; behind 0 of 2\n\
    10 1 carried 14; behind 0 of 2\n\
    11 1 heard 1; behind 1 of 2\n\
    12 1 heard 1; current 2\n\
    13 1 carried 93; current 2\n",
);

// An id that the image has is used again by what was held.
const ID_USED_AGAIN: (&[u8], &str) = (
    b"1 add 1 B 100 IBM 10.00\n\
    1 delete 1\n\
    1 add 1 S 70 IBM 10.50\n\
    1 flush\n\
    1 spin open\n\
    1 spin up all\n\
    1 advertise\n\
    1 spin down all\n\
    1 delete 1\n\
    1 add 1 B 5 IBM 9.00\n\
    1 flush\n\
    1 a 2\n\
    1 tick\n\
    1 spin up all\n\
    1 spin down all\n\
    1 show\n",
    "1 1 accepted 1; silent\n\
    2 1 accepted 2; silent\n\
    3 1 accepted 3; silent\n\
    4 1 sent 1; silent\n\
    5 1 opened; silent\n\
    6 1 carried 30; silent\n\
    7 1 advertised 3; silent\n\
    8 1 carried 25; behind 0 of 3\n\
    9 1 accepted 4; behind 0 of 3\n\
    10 1 accepted 5; behind 0 of 3\n\
    11 1 sent 1; behind 0 of 3\n\
    12 1 heard 1; behind 0 of 5\n\
    13 1 asked spin 3; behind 0 of 5\n\
    14 1 carried 14; behind 0 of 5\n\
    15 1 carried 67; current 5\n\
    16 1 shown; current 5\n\
    book unit 1 at 5 second - orders 1\n\
    order 1 B 5 IBM 9.0000\n\
    lines a 2/2 b 0/0 g 0/0\n",
);

// An image of one order is all that a client ever hears.
const IMAGE_ALONE: (&[u8], &str) = (
    b"1 add 1 B 10 IBM 10.00\n\
    1 flush\n\
    1 spin open\n\
    1 spin up all\n\
    1 advertise\n\
    1 spin down all\n\
    1 tick\n\
    1 spin up all\n\
    1 spin down all\n",
    "1 1 accepted 1; silent\n\
    2 1 sent 1; silent\n\
    3 1 opened; silent\n\
    4 1 carried 30; silent\n\
    5 1 advertised 1; silent\n\
    6 1 carried 25; behind 0 of 1\n\
    7 1 asked spin 1; behind 0 of 1\n\
    8 1 carried 14; behind 0 of 1\n\
    9 1 carried 67; current 1\n",
);

// A halt comes by an image alone, and a book shows it after its orders.
const IMAGE_OF_A_STATUS: (&[u8], &str) = (
    b"1 add 1 B 10 IBM 10.00\n\
    1 status IBM H 0\n\
    1 flush\n\
    1 spin open\n\
    1 spin up all\n\
    1 advertise\n\
    1 spin down all\n\
    1 tick\n\
    1 spin up all\n\
    1 spin down all\n\
    1 show\n",
    "1 1 accepted 1; silent\n\
    2 1 accepted 2; silent\n\
    3 1 sent 1; silent\n\
    4 1 opened; silent\n\
    5 1 carried 30; silent\n\
    6 1 advertised 2; silent\n\
    7 1 carried 25; behind 0 of 2\n\
    8 1 asked spin 2; behind 0 of 2\n\
    9 1 carried 14; behind 0 of 2\n\
    10 1 carried 85; current 2\n\
    11 1 shown; current 2\n\
    book unit 1 at 2 second - orders 1\n\
    order 1 B 10 IBM 10.0000\n\
    status IBM H 0\n\
    lines a 0/0 b 0/0 g 0/0\n",
);

static SCHEDULES: [(&[u8], &str); 12] = [
    OUT_OF_ORDER,
    ON_BOTH_LINES,
    REFUSED,
    OVERFLOWED,
    REPLY_LOST,
    TOLD_OF_MORE,
    IMAGE_AFTER_OVERFLOW,
    IMAGE_CUT,
    IMAGE_STALE,
    ID_USED_AGAIN,
    IMAGE_ALONE,
    IMAGE_OF_A_STATUS,
];

// Each schedule has its text, where at most `piece` bytes come at once.
pub(crate) fn all_are_told<R: Threads + Wait + Clock + Sync + Abort>(
    rt: &R,
    alloc: Global,
    line: &str,
    piece: usize,
    schedules: &[(&[u8], &str)],
)
    requires { 0 < piece }
{
    for (schedule, text) in schedules {
        let wanted = (ExitStatus::Done, text.as_bytes(), "");
        ends_so(rt, alloc, line, &[*schedule], piece, wanted);
    }
}

// However the bytes come, and with any number of workers.
#[test]
fn each_schedule_has_its_text(rt: HostRuntime) {
    all_are_told(&rt, rt.alloc(), "replay", 7, &SCHEDULES);
    for line in ["replay --workers 2", "replay --workers 7"] {
        all_are_told(&rt, rt.alloc(), line, 65536, &SCHEDULES);
    }
}

// Schedules with a fault, its place, and its cause.
static FAULTY_SCHEDULES: [(&[u8], &str); 8] = [
    (
        b"1 add 1 X 100 IBM 10.00\n",
        "pitch: bad input at line 1 column 9: bad-word\n",
    ),
    (
        b"1 add 1 B 100 IBM\n",
        "pitch: bad input at line 1 column 18: missing-field\n",
    ),
    (
        b"1 flush x\n",
        "pitch: bad input at line 1 column 9: extra-field\n",
    ),
    (
        b"65 flush\n",
        "pitch: bad input at line 1 column 1: bad-number\n",
    ),
    (
        b"1 time 86400\n",
        "pitch: bad input at line 1 column 8: bad-number\n",
    ),
    (
        b"1 add 1 B 1 IBM 1.23456\n",
        "pitch: bad input at line 1 column 17: bad-price\n",
    ),
    (
        b"1 flush\n\n# 1 flush x\n1 grp up 5 6\n1 flush x\n",
        "pitch: bad input at line 4 column 12: extra-field\n",
    ),
    (
        b"1 tick\n1",
        "pitch: bad input at line 2 column 2: missing-field\n",
    ),
];

// Each faulty schedule is refused for its fault, with nothing written.
fn all_have_faults<R: Threads + Wait + Clock + Sync + Abort>(
    rt: &R,
    alloc: Global,
    schedules: &[(&[u8], &str)],
) {
    for (schedule, fault) in schedules {
        let wanted = (ExitStatus::BadInput, b"".as_slice(), *fault);
        ends_so(rt, alloc, "replay", &[*schedule], 65536, wanted);
    }
}

#[test]
fn a_faulty_schedule_is_refused(rt: HostRuntime) {
    all_have_faults(&rt, rt.alloc(), &FAULTY_SCHEDULES);
}
