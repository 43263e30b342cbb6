//! Texts of commands, and the feed that `pack` makes of them.
ghost use Rattle.std.specs.Prelude.{◌<◌};

use crate::runs::ends_so;
use crate::streams::ADDS;
use pitch_tool::ExitStatus;
use std::alloc::Global;
use std::process::Abort;
use std::sync::Wait;
use std::thread::Threads;
use std::time::Clock;

// Texts of commands, the bytes that `pack` writes of them for unit 1, and what is said.
static TEXTS: [(&[u8], &[u8], &str); 6] = [
    (b"", b"", ""),
    (b"add 1 B 100 IBM 655.35\nadd 2 B 100 IBM 655.36", ADDS, ""),
    (
        b"add 1 B 100 IBM 10.00\nadd 1 B 1 IBM 1\n",
        b"",
        "pitch: refused at line 2: known-id\n",
    ),
    (
        b"add 1 B 100 IBM 10.00\nreduce 1 101\n",
        b"",
        "pitch: refused at line 2: too-much 101 100\n",
    ),
    (
        b"\nadd 1 X 100 IBM 10.00\n",
        b"",
        "pitch: bad input at line 2 column 7: bad-word\n",
    ),
    // a fault comes before a refusal, wherever it stands
    (
        b"delete 1\n\nclear x\n",
        b"",
        "pitch: bad input at line 3 column 7: bad-word\n",
    ),
];

// Each text has its bytes, and is refused with what is said.
fn all_are_packed<R: Threads + Wait + Clock + Sync + Abort>(
    rt: &R,
    alloc: Global,
    piece: usize,
    texts: &[(&[u8], &[u8], &str)],
)
    requires { 0 < piece }
{
    for (text, bytes, said) in texts {
        let wanted = (status_of(said), *bytes, *said);
        ends_so(rt, alloc, "pack --unit 1", &[*text], piece, wanted);
    }
}

// A text is done of which nothing is said.
fn status_of(said: &str) -> ExitStatus {
    if said.is_empty() {
        ExitStatus::Done
    } else {
        ExitStatus::BadInput
    }
}

#[test]
fn commands_are_packed(rt: HostRuntime) {
    for piece in [1, 65536] {
        all_are_packed(&rt, rt.alloc(), piece, &TEXTS);
    }
}
