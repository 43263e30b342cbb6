//! Clients: one that tells what it applied, one that asks for a gap again, and a bad image.

ghost use Rattle.std.specs.Prelude.{◌<◌};
ghost use Rattle.heard_items.specs.Changes.{IsItem};

use client_core::{Ask, Change, ImageEnd, Item, UnitClient, item_of_block};
use pitch_fields::HoldLimit;
use pitch_messages::{Raw, RawList};
use std::alloc::Global;
use std::process::Abort;

const OTHER: &[u8] = b"\x03\x99\x07";

const ADD: &[u8] = b"\x22\x21\0\0\0\0\x05\0\0\0\0\0\0\0B\x64\0\0\0IBM   \xa0\x86\x01\0\0\0\0\0\x01";

// The item of a block with one message, in ample memory.
fn item_of(rt: &impl Abort, alloc: Global, sequence: u32, bytes: &[u8]) -> Item
    requires { sequence < 100 }
    ensures { IsItem result }
{
    let mut list = RawList::make(alloc);
    let raw = Raw::from_bytes(bytes).expect(rt, "a raw");
    list.push(&raw).expect(rt, "memory");
    assert!(rt; list.len() == 1);
    item_of_block(alloc, sequence, list.raws()).expect(rt, "memory")
}

// Hears the block with one message, and answers how many messages were applied so far.
fn applied_after(
    rt: &impl Abort,
    alloc: Global,
    client: &mut UnitClient,
    block: (u32, &[u8]),
    applied: &mut RawList,
) -> usize
    requires { block.0 < 100 }
{
    let (sequence, bytes) = block;
    let item = item_of(rt, alloc, sequence, bytes);
    assert!(rt; client.hear_into(&item, applied).is_ok());
    drop(item);
    applied.len()
}

fn client_of<R: Abort + AllocGlobal>(rt: &R) -> UnitClient {
    let limit = HoldLimit::of(4).expect(rt, "a limit");
    UnitClient::make(rt.alloc(), limit).expect(rt, "memory")
}

// A client has no order at first, and takes room for two.
fn takes_room(rt: &impl Abort, client: &mut UnitClient) {
    assert!(rt; client.book().len() == 0);
    assert!(rt; client.reserve(2).is_ok());
    assert!(rt; client.spare() >= 2);
}

// The second message is held, and applied after the first.
fn applies_in_order(rt: &impl Abort, alloc: Global, client: &mut UnitClient) {
    let mut applied = RawList::make(alloc);
    assert!(rt; applied_after(rt, alloc, client, (2, ADD), &mut applied) == 0);
    assert!(rt; applied_after(rt, alloc, client, (1, OTHER), &mut applied) == 2);
    assert!(rt; applied.get(0) == Some(OTHER) && applied.get(1) == Some(ADD));
}

#[test]
fn tells_what_was_applied(rt: HostRuntime) {
    let mut client = client_of(&rt);
    takes_room(&rt, &mut client);
    applies_in_order(&rt, rt.alloc(), &mut client);
    drop(client);
}

// Hears an item, in ample memory, and lets it go.
fn hear(rt: &impl Abort, client: &mut UnitClient, item: Item) -> Change
    requires { IsItem item }
{
    let change = client.hear(&item).expect(rt, "memory");
    drop(item);
    change
}

// The gap before the second message.
const GAP: Option<Ask> = Some(Ask::Gap { first: 1, count: 1 });

fn refused() -> Item
    ensures { IsItem result }
{
    Item::GapReply {
        sequence: 1,
        count: 1,
        status: b'O',
    }
}

// A gap is asked for once, and again after a refusal while there is no Spin Server.
#[test]
fn a_refused_gap_is_asked_for_again(rt: HostRuntime) {
    let mut client = client_of(&rt);
    lacks_the_first(&rt, rt.alloc(), &mut client);
    asks_again(&rt, &mut client);
    drop(client);
}

// The second message comes, and the proxy is there.
fn lacks_the_first(rt: &impl Abort, alloc: Global, client: &mut UnitClient) {
    hear(rt, client, item_of(rt, alloc, 2, OTHER));
    hear(rt, client, Item::GrpUp);
}

fn asks_again(rt: &impl Abort, client: &mut UnitClient) {
    assert!(rt; client.tick() == GAP && client.tick() == None);
    hear(rt, client, refused());
    assert!(rt; client.tick() == GAP);
}

// The messages of an image that has one order.
fn one_order(rt: &impl Abort, alloc: Global) -> Item
    ensures { IsItem result }
{
    let mut raws = RawList::make(alloc);
    let raw = Raw::from_bytes(ADD).expect(rt, "a raw");
    raws.push(&raw).expect(rt, "memory");
    Item::ImageMessages { raws }
}

// An image with two orders is promised.
fn promise() -> Item
    ensures { IsItem result }
{
    Item::SpinReply {
        sequence: 4,
        orders: 2,
        status: b'A',
    }
}

// The image through 4 is asked for, and promised.
fn is_promised_two(rt: &impl Abort, client: &mut UnitClient) {
    hear(rt, client, Item::SpinUp);
    hear(rt, client, Item::Advertised { sequence: 4 });
    assert!(rt; client.tick() == Some(Ask::Spin { sequence: 4 }));
    hear(rt, client, promise());
}

const LACKS_ONE: ImageEnd = ImageEnd::Bad {
    promised: 2,
    got: 1,
};

// An image with fewer orders than were promised changes nothing.
#[test]
fn an_image_that_lacks_an_order_is_bad(rt: HostRuntime) {
    let mut client = client_of(&rt);
    is_promised_two(&rt, &mut client);
    hear(&rt, &mut client, one_order(&rt, rt.alloc()));
    changes_nothing(&rt, &mut client);
    drop(client);
}

fn changes_nothing(rt: &impl Abort, client: &mut UnitClient) {
    let before = client.status();
    let change = hear(rt, client, Item::SpinFinished { sequence: 4 });
    assert!(rt; change.image == LACKS_ONE);
    assert!(rt; change.before == before && change.after == before);
    assert!(rt; client.book().len() == 0);
}
