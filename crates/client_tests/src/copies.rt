//! Copies of messages on two lines, of which one differs.

use line_copies::LineCopies;
use std::process::Abort;
use unit_packets::Blocks;

// A datagram of one block, with a delete of an order.
fn delete(unit: u8, sequence: u32, order: u8) -> [u8; 22] {
    let [a, b, c, d] = sequence.to_le_bytes();
    [
        22, 0, 1, unit, a, b, c, d, 14, 0x29, 0, 0, 0, 0, order, 0, 0, 0, 0, 0, 0, 0,
    ]
}

// What is told of the first block of a datagram.
fn told_of<R: Abort + AllocGlobal>(
    rt: &R,
    copies: &mut LineCopies,
    datagram: &[u8],
) -> Option<u32> {
    let block = Blocks::of_bytes(datagram)
        .next_block()
        .expect(rt, "a block");
    copies.hear_block(rt.alloc(), &block).expect(rt, "memory")
}

#[test]
fn a_second_copy_differs(rt: HostRuntime) {
    let mut copies = LineCopies::make(rt.alloc()).expect(&rt, "memory");
    // On line A, on line B, and of another unit.
    assert_eq!(rt; told_of(&rt, &mut copies, &delete(1, 7, 5)), None);
    assert_eq!(rt; told_of(&rt, &mut copies, &delete(1, 7, 5)), None);
    assert_eq!(rt; told_of(&rt, &mut copies, &delete(2, 7, 6)), None);
    // The venue starts anew.
    assert_eq!(rt; told_of(&rt, &mut copies, &delete(1, 7, 6)), Some(7));
    // A later message has the slot of 7 now, and stays there.
    assert_eq!(rt; told_of(&rt, &mut copies, &delete(1, 65_543, 6)), None);
    assert_eq!(rt; told_of(&rt, &mut copies, &delete(1, 7, 8)), None);
    assert_eq!(rt;
        told_of(&rt, &mut copies, &delete(1, 65_543, 8)),
        Some(65_543)
    );
}
