//! Gap stores: ranges that are kept, gone or not there yet, and a copy of a store.

ghost use Rattle.std.specs.Prelude.{◌≤◌};

use gap_store::{Found, GapLookup, GapStore};
use pitch_messages::{Raw, RawList};
use std::alloc::Global;
use std::process::Abort;
use unit_packets::DatagramList;

// 300 messages over 200 places; the second byte of each is its sequence, modulo 256.
pub(crate) fn filled(rt: &impl Abort, alloc: Global) -> GapStore {
    let mut store = GapStore::make(alloc, 200).expect(rt, "memory");
    for sequence in 1..301u32 {
        let raw = Raw::from_bytes(&[2, sequence.to_le_bytes()[0]]).expect(rt, "a raw");
        assert!(rt; store.last() < 4294967294);
        store.push(&raw);
    }
    store
}

// What a look-up, a search and a packing of a range find.
fn found(alloc: Global, store: &mut GapStore, first: u32, count: u16) -> [Option<Found>; 3]
    requires first { 1 ≤ first }
    requires count { 1 ≤ count }
{
    let mut out = RawList::make(alloc);
    let mut lines = DatagramList::make(alloc);
    [
        store.look(first, count, &mut out).ok(),
        store.find(first, count).ok(),
        store.pack(alloc, 1, first, count, &mut lines).ok(),
    ]
}

// Ranges of the 300 messages, and what is found of them.
const RANGES: [(u32, u16, Found); 3] = [
    (299, 2, Found::Kept),
    (300, 2, Found::Ahead { last: 300 }),
    (100, 1, Found::NotKept { first: 101 }),
];

fn all_are_found(
    rt: &impl Abort,
    alloc: Global,
    store: &mut GapStore,
    ranges: &[(u32, u16, Found)],
) {
    for (first, count, wanted) in ranges {
        assert!(rt; *first >= 1 && *count >= 1);
        assert!(rt; found(alloc, store, *first, *count) == [Some(*wanted); 3]);
    }
}

// Whether the last two messages are there, one by one and packed.
fn has_the_last(rt: &impl Abort, alloc: Global, store: &mut GapStore) -> bool {
    let mut out = RawList::make(alloc);
    store.look(299, 2, &mut out).expect(rt, "memory");
    let mut lines = DatagramList::make(alloc);
    store
        .pack(alloc, 1, 299, 2, &mut lines)
        .expect(rt, "memory");
    let datagram = lines.get(0).expect(rt, "a datagram");
    let bytes = b"\x0c\0\x02\x01\x2b\x01\0\0\x02\x2b\x02\x2c";
    let first = out.get(0) == Some([2, 43].as_slice());
    let second = out.get(1) == Some([2, 44].as_slice());
    first && second && out.len() == 2 && lines.len() == 1 && datagram.bytes() == bytes.as_slice()
}

#[test]
fn the_last_are_kept(rt: HostRuntime) {
    let mut store = filled(&rt, rt.alloc());
    assert!(rt; (store.first(), store.last()) == (Some(101), 300));
    all_are_found(&rt, rt.alloc(), &mut store, &RANGES);
    assert!(rt; has_the_last(&rt, rt.alloc(), &mut store));
}

#[test]
fn a_copy_has_the_same_and_stays(rt: HostRuntime) {
    let mut store = filled(&rt, rt.alloc());
    let mut copy = store.copy(rt.alloc()).expect(&rt, "memory");
    assert!(rt; store.last() < 4294967294);
    store.push(&Raw::from_bytes(&[2, 45]).expect(&rt, "a raw"));
    assert!(rt; store.last() == 301);
    all_are_found(&rt, rt.alloc(), &mut copy, &RANGES);
    assert!(rt; has_the_last(&rt, rt.alloc(), &mut copy));
}

#[test]
fn a_new_store_keeps_nothing(rt: HostRuntime) {
    let store = GapStore::make(rt.alloc(), 200).expect(&rt, "memory");
    assert!(rt; (store.first(), store.last()) == (None, 0));
}
