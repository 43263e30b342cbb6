//! Arbiters: datagrams that are cut into items, and counts of each line and unit.

use heard_items::Item;
use line_arbiter::{Arbiter, DatagramFault, HeardList, Line, LineCount};
use std::alloc::Global;
use std::process::Abort;
use unit_packets::BlockError;

// A heartbeat of unit 1, a message of unit 2, and an unsequenced block of unit 3.
const BLOCKS: &[u8] =
    b"\x08\0\0\x01\x05\0\0\0\x0e\0\x01\x02\x03\0\0\0\x06\x20\x0a\0\0\0\x08\0\0\x03\0\0\0\0";

// How many bytes of these blocks come, how many blocks these are, and the fault after them: its
// place, how many bytes stand there, and how many the block needs.
const CUTS: [(usize, usize, Option<(u32, u32, u32)>); 5] = [
    (30, 3, None),
    (22, 2, None),
    (21, 1, Some((8, 13, 14))),
    (11, 1, Some((8, 3, 8))),
    (0, 0, Some((0, 0, 8))),
];

// So many bytes of these blocks are cut into items, and this is the fault after them.
fn is_cut(
    rt: &impl Abort,
    alloc: Global,
    blocks: &[u8],
    cut: &(usize, usize, Option<(u32, u32, u32)>),
) {
    let (length, count, fault) = *cut;
    let mut heard = HeardList::make(alloc);
    assert!(rt; blocks.len() < 100 && length <= blocks.len());
    let found = Arbiter::make().deliver(alloc, Line::A, &blocks[..length], &mut heard);
    let cut_off = fault.map(|(place, has, needs)| DatagramFault {
        place,
        error: BlockError::Truncated { has, needs },
    });
    assert!(rt; found == Ok(cut_off) && heard.len() == count);
}

fn all_are_cut(
    rt: &impl Abort,
    alloc: Global,
    blocks: &[u8],
    cuts: &[(usize, usize, Option<(u32, u32, u32)>)],
) {
    for cut in cuts {
        is_cut(rt, alloc, blocks, cut);
    }
}

#[test]
fn datagrams_are_cut_into_blocks(rt: HostRuntime) {
    all_are_cut(&rt, rt.alloc(), BLOCKS, &CUTS);
}

// Whether the items are of the units 1, 2 and 3, and say what the blocks do.
fn are_of_the_blocks(heard: &HeardList) -> bool {
    match heard.as_slice() {
        [next, first, last] => {
            let units = (next.unit, first.unit, last.unit) == (1, 2, 3);
            let told = matches!(next.item, Item::Next { next: 5 });
            let begun = matches!(first.item, Item::Messages { first: 3, .. });
            units && told && begun && matches!(last.item, Item::Nothing)
        }
        _ => false,
    }
}

#[test]
fn items_are_those_of_the_blocks(rt: HostRuntime) {
    let mut heard = HeardList::make(rt.alloc());
    let found = Arbiter::make().deliver(rt.alloc(), Line::B, BLOCKS, &mut heard);
    assert!(rt; found == Ok(None));
    assert!(rt; are_of_the_blocks(&heard));
}

#[test]
fn lines_and_units_have_counts_of_their_own(rt: HostRuntime) {
    let mut arbiter = Arbiter::make();
    arbiter.note(Line::A, 0, 3, 3);
    arbiter.note(Line::A, 255, 1, 0);
    arbiter.note(Line::B, 0, 3, 0);
    arbiter.note(Line::A, 0, 2, 1);
    let counts = |messages, fresh| LineCount { messages, fresh };
    assert!(rt; arbiter.counts(Line::A, 0) == counts(5, 4));
    assert!(rt; arbiter.counts(Line::A, 255) == counts(1, 0));
    assert!(rt; arbiter.counts(Line::B, 0) == counts(3, 0));
    assert!(rt; arbiter.counts(Line::Gap, 0) == counts(0, 0));
}
