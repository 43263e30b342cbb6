//! A text of commands to units that comes in pieces: cut at any place, it says the same.

use pitch_text::TextError;
use std::alloc::Global;
use std::process::Abort;
use unit_commands::{LONGEST_REST, PieceError, TextPieces, UnitCommandEntry, UnitCommands};

// Lines that say nothing, two with a fault, and a last one without its line feed.
const TEXT: &[u8] = b"# none\n1 clear\r\n0 end\n\n255 end at=1\n7 clear 2";

// What a line says: the unit of its command, or the column of its fault.
#[derive(Clone, Copy, PartialEq, Eq)]
enum Said {
    Unit(u8),
    Column(u32),
}

// What the text says, by the numbers of its lines.
const SAID: [(u64, Said); 4] = [
    (2, Said::Unit(1)),
    (3, Said::Column(1)),
    (5, Said::Unit(255)),
    (6, Said::Column(9)),
];

// What an item says, with its line in the whole text.
fn placed(rt: &impl Abort, item: Result<UnitCommandEntry, TextError>, before: u64) -> (u64, Said) {
    assert!(rt; before < 100);
    match item {
        Ok(entry) => (before + u64::from(entry.line), Said::Unit(entry.unit)),
        Err(TextError::Bad { line, column, .. }) => {
            (before + u64::from(line), Said::Column(column))
        }
        Err(TextError::OutOfMemory) => (0, Said::Column(0)),
    }
}

// These bytes say the first of what is left to be said: the others.
fn says<'a>(
    rt: &impl Abort,
    bytes: &[u8],
    before: u64,
    left: &'a [(u64, Said)],
) -> &'a [(u64, Said)] {
    assert!(rt; bytes.len() < 100);
    let mut left = left;
    for item in UnitCommands::of_text(bytes) {
        assert!(rt; !left.is_empty());
        assert!(rt; placed(rt, item, before) == left[0]);
        left = &left[1..];
    }
    left
}

// One piece more says the first of what is left to be said: the others.
fn comes<'a>(
    rt: &impl Abort,
    pieces: &mut TextPieces,
    piece: &[u8],
    left: &'a [(u64, Said)],
) -> &'a [(u64, Said)] {
    assert!(rt; piece.len() < 100);
    pieces.pass();
    assert!(rt; pieces.push(piece) == Ok(()));
    let others = says(rt, pieces.whole(), pieces.lines(), left);
    pieces.pass();
    others
}

// The text says the same where it comes in two pieces, an empty one after them, and its end.
fn is_cut(rt: &impl Abort, alloc: Global, front: &[u8], back: &[u8]) {
    let mut pieces = TextPieces::make(alloc);
    let left = comes(rt, &mut pieces, front, &SAID);
    let left = comes(rt, &mut pieces, back, left);
    let left = comes(rt, &mut pieces, b"", left);
    assert!(rt; pieces.lines() == 5);
    assert!(rt; pieces.rest() == b"7 clear 2".as_slice());
    let left = says(rt, pieces.rest(), pieces.lines(), left);
    assert!(rt; left.is_empty());
}

#[test]
fn a_text_cut_anywhere(rt: HostRuntime) {
    for at in 0..TEXT.len() + 1 {
        let (front, back) = TEXT.split_at(at);
        is_cut(&rt, rt.alloc(), front, back);
    }
}

// A line that does not end: so many bytes of it are taken, and not one more; its end is taken.
fn is_too_long(rt: &impl Abort, pieces: &mut TextPieces, piece: &[u8]) {
    assert!(rt; piece.len() == 65_536);
    for _ in 0..16 {
        pieces.pass();
        assert!(rt; pieces.push(piece) == Ok(()));
    }
    pieces.pass();
    assert!(rt; pieces.push(b"x") == Err(PieceError::TooLong));
    assert!(rt; pieces.rest().len() == LONGEST_REST);
    pieces.pass();
    assert!(rt; pieces.push(b"\nend") == Ok(()));
    assert!(rt; pieces.whole().len() == LONGEST_REST + 1);
    pieces.pass();
    assert!(rt; pieces.rest() == b"end".as_slice());
    assert!(rt; pieces.lines() == 1);
}

#[test]
fn a_line_that_does_not_end(rt: HostRuntime) {
    let piece = Vec::from_elem(rt.alloc(), b'x', 65_536).expect(&rt, "memory");
    let mut pieces = TextPieces::make(rt.alloc());
    is_too_long(&rt, &mut pieces, &piece);
}

#[test]
fn errors_in_words(rt: HostRuntime) {
    let words = format!(in rt.alloc();
        "{}; {}",
        PieceError::TooLong,
        PieceError::OutOfMemory
    ).expect(&rt, "memory");
    assert!(rt; words.as_str() == "a line of more than 1048576 bytes; out of memory");
}
