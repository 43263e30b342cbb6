//! A relay that takes an image, and the datagrams that it sends from there on.

use pitch_fields::HoldLimit;
use relay_unit::{Outlet, Relay};
use std::alloc::Global;
use std::process::Abort;
use unit_packets::{BlockList, BlockReader, BlockView, DatagramList, view_block};

// A heartbeat behind message 2, a spin of an image through it that has one order, and a line's
// deletion of that order.
const HEARTBEAT: &[u8] = b"\x08\0\0\x01\x03\0\0\0";

const AVAILABLE: &[u8] = b"\x0e\0\x01\x01\0\0\0\0\x06\x80\x02\0\0\0";

const REPLY: &[u8] = b"\x13\0\x01\x01\0\0\0\0\x0b\x82\x02\0\0\0\x01\0\0\0A";

const ORDER: &[u8] =
    b"\x22\0\x01\x01\0\0\0\0\x1a\x22\0\0\0\0\x05\0\0\0\0\0\0\0B\x64\0IBM   \xe8\x03\x01";

const FINISHED: &[u8] = b"\x0e\0\x01\x01\0\0\0\0\x06\x83\x02\0\0\0";

const DELETION: &[u8] = b"\x16\0\x01\x01\x03\0\0\0\x0e\x29\0\0\0\0\x05\0\0\0\0\0\0\0";

// What is sent for the image: Unit Clear and the order. So the deletion is message 3 here too.
const IMAGE: &[u8] =
    b"\x28\0\x02\x01\x01\0\0\0\x06\x97\0\0\0\0\x1a\x22\0\0\0\0\x05\0\0\0\0\0\0\0B\x64\0IBM   \xe8\x03\x01";

// What comes.
const BLOCKS: [&[u8]; 6] = [HEARTBEAT, AVAILABLE, REPLY, ORDER, FINISHED, DELETION];

// Hears blocks, in ample memory.
fn hear_all(rt: &impl Abort, relay: &mut Relay, blocks: &[&[u8]], out: &mut impl Outlet) {
    for bytes in blocks {
        let block = view_block(bytes).expect(rt, "a block");
        assert!(rt; relay.hear(&block, out).is_ok());
    }
}

fn relay_of<R: Abort + AllocGlobal>(rt: &R) -> Relay {
    let limit = HoldLimit::of(16).expect(rt, "a limit");
    Relay::make(rt.alloc(), 1, limit).expect(rt, "memory")
}

// Whether the image and the deletion were sent, in a datagram each.
fn are_sent(out: &DatagramList) -> bool {
    match out.as_slice() {
        [image, deletion] => image.bytes() == IMAGE && deletion.bytes() == DELETION,
        _ => false,
    }
}

#[test]
fn an_image_and_what_follows_are_a_datagram_each(rt: HostRuntime) {
    let mut relay = relay_of(&rt);
    let mut out = DatagramList::make(rt.alloc());
    hear_all(&rt, &mut relay, &BLOCKS, &mut out);
    assert!(rt; relay.book().len() == 0);
    drop(relay);
    assert!(rt; are_sent(&out));
}

#[test]
fn datagrams_are_laid_one_behind_another(rt: HostRuntime) {
    let mut relay = relay_of(&rt);
    let mut out = Vec::new(rt.alloc());
    hear_all(&rt, &mut relay, &BLOCKS, &mut out);
    drop(relay);
    assert!(rt; out.len() == IMAGE.len() + DELETION.len());
    assert!(rt; out.starts_with(IMAGE) && out.ends_with(DELETION));
}

// The blocks that a reader hands out.
fn blocks_of(rt: &impl Abort, alloc: Global, parts: &[&[u8]]) -> BlockList {
    let mut reader = BlockReader::make(alloc);
    let mut blocks = BlockList::make(alloc);
    for bytes in parts {
        assert!(rt; reader.feed(bytes, &mut blocks).is_ok());
    }
    drop(reader);
    blocks
}

// Hears blocks that own their messages, which are lent.
fn hear_lent(rt: &impl Abort, relay: &mut Relay, blocks: &BlockList, out: &mut DatagramList) {
    for block in blocks.as_slice() {
        let heard = relay.hear(&BlockView::of_block(block), out);
        assert!(rt; heard.is_ok());
    }
}

// The blocks of a reader own their messages, and are lent to the relay.
#[test]
fn the_blocks_of_a_reader_are_heard(rt: HostRuntime) {
    let blocks = blocks_of(&rt, rt.alloc(), &BLOCKS);
    assert!(rt; blocks.len() == 6);
    let mut relay = relay_of(&rt);
    let mut out = DatagramList::make(rt.alloc());
    hear_lent(&rt, &mut relay, &blocks, &mut out);
    drop(relay);
    drop(blocks);
    assert!(rt; are_sent(&out));
}
