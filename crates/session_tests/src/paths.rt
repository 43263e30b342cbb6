//! An image that goes from a shelf over a server and a link to a client's items.

use crate::links::ACCOUNT;
use crate::spins::{server, shelf};
use client_links::{ItemList, SpinLink};
use heard_items::Item;
use spin_path::{carry, serve};
use spin_server::{ImageShelf, SpinServer};
use std::alloc::Global;
use std::process::Abort;

// All that a server says to these bytes, in one block.
fn answered(
    rt: &impl Abort,
    alloc: Global,
    server: &mut SpinServer,
    shelf: &mut ImageShelf,
    up: &[u8],
) -> Vec<u8> {
    let mut down = Vec::new(alloc);
    assert!(rt; serve(server, shelf, up, &mut down) == Ok(true));
    assert!(rt; serve(server, shelf, &[], &mut down) == Ok(false));
    down
}

// Whether the last items are those of the image of one order through 1.
fn are_of_the_image(items: &ItemList) -> bool {
    let reply = matches!(
        items.get(2),
        Some(Item::SpinReply {
            sequence: 1,
            orders: 1,
            status: b'A'
        })
    );
    let finished = matches!(items.get(4), Some(Item::SpinFinished { sequence: 1 }));
    reply && finished && items.len() == 5
}

// A link of unit 1 that has asked for the image through 1.
fn asking(rt: &impl Abort, alloc: Global, up: &mut Vec<u8>) -> SpinLink {
    let mut link = SpinLink::make(alloc, 1, &ACCOUNT, up).expect(rt, "memory");
    link.ask(1, up).expect(rt, "memory");
    link
}

// All that a server with the image of one order says to these bytes.
fn said_to(rt: &impl Abort, alloc: Global, up: &[u8]) -> Vec<u8> {
    let mut shelf = shelf(rt, alloc, 1);
    let mut server = server(rt, alloc, false);
    let down = answered(rt, alloc, &mut server, &mut shelf, up);
    drop(server);
    drop(shelf);
    down
}

// A login and a request, and the image of one order, over a server and a link.
#[test]
fn an_image_is_carried(rt: HostRuntime) {
    let mut up = Vec::new(rt.alloc());
    let mut link = asking(&rt, rt.alloc(), &mut up);
    let down = said_to(&rt, rt.alloc(), &up);
    let mut items = ItemList::make(rt.alloc());
    carry(&mut link, &down, &mut items).expect(&rt, "memory");
    drop(link);
    assert!(rt; are_of_the_image(&items));
}
