//! What `quotes` writes of the feeds that `pack` makes.
ghost use Rattle.std.specs.Prelude.{◌<◌};

use crate::runs::{ends_so, run};
use crate::streams::TIME;
use pitch_tool::ExitStatus;
use std::alloc::Global;
use std::process::Abort;
use std::sync::Wait;
use std::thread::Threads;
use std::time::Clock;

// Texts of commands, and the quotes of what `pack` makes of them for unit 1.
static TEXTS: [(&[u8], &[u8]); 5] = [
    (b"", b""),
    // nothing is written where no best changes
    (
        b"add 1 B 100 IBM 10.00\nadd 2 B 50 IBM 10.00\nadd 3 B 10 IBM 9.99\ndelete 3\n",
        b"quote unit 1 at 1 IBM B 10.0000 100\nquote unit 1 at 2 IBM B 10.0000 150\n",
    ),
    // sides that become empty are told, to buy before to sell
    (
        b"add 1 B 100 IBM 10.00\nadd 2 S 5 IBM 10.05\nclear\n",
        b"quote unit 1 at 1 IBM B 10.0000 100\nquote unit 1 at 2 IBM S 10.0500 5\n\
            quote unit 1 at 3 IBM B - -\nquote unit 1 at 3 IBM S - -\n",
    ),
    // a best that has another price is told, though it has as many shares
    (
        b"add 1 S 10 IBM 10.05\nmodify 1 10 10.04\n",
        b"quote unit 1 at 1 IBM S 10.0500 10\nquote unit 1 at 2 IBM S 10.0400 10\n",
    ),
    // symbols stand by their bytes, and not as they came
    (
        b"add 1 B 1 IBM 2.00\nadd 2 S 3 ACME 4.00\nclear\n",
        b"quote unit 1 at 1 IBM B 2.0000 1\nquote unit 1 at 2 ACME S 4.0000 3\n\
            quote unit 1 at 3 ACME S - -\nquote unit 1 at 3 IBM B - -\n",
    ),
];

// Each text has its quotes.
fn all_are_quoted<R: Threads + Wait + Clock + Sync + Abort>(
    rt: &R,
    alloc: Global,
    piece: usize,
    texts: &[(&[u8], &[u8])],
)
    requires { 0 < piece }
{
    for (text, quotes) in texts {
        let feed = run(rt, alloc, "pack --unit 1", &[*text], 65536);
        let wanted = (ExitStatus::Done, *quotes, "");
        ends_so(rt, alloc, "quotes", &[feed.written()], piece, wanted);
    }
}

#[test]
fn feeds_are_quoted(rt: HostRuntime) {
    for piece in [1, 65536] {
        all_are_quoted(&rt, rt.alloc(), piece, &TEXTS);
    }
}

const CUT: &[&[u8]] = &[TIME, b"\x08\x00\x00"];

const CUT_SAID: &str = "pitch: bad input at byte 14: truncated, has 3 of 8\n";

#[test]
fn a_cut_block_ends_quotes(rt: HostRuntime) {
    let wanted = (ExitStatus::BadInput, b"".as_slice(), CUT_SAID);
    ends_so(&rt, rt.alloc(), "quotes", CUT, 7, wanted);
}
