//! Clients that end with all messages, one by a datagram and one by an image alone.

use client_core::UnitClient;
use drill_client::{append_end, asks_when_told_of_all, begin, hear_all, hear_datagram};
use pitch_fields::{HoldLimit, OutOfMemory};
use pitch_messages::RawList;
use std::alloc::Global;
use std::test::*;

// A datagram of unit 1: the second 34,200 as message 1.
const CLOCK: &[u8] = b"\x0e\x00\x01\x01\x01\x00\x00\x00\x06\x20\x98\x85\x00\x00";

const LINES: &[u8] = b"unit 1 current 1 orders 0 shares 0\nunit 2 current 1 orders 0 shares 0\n";

// One client hears the message, the other only an image through it.
#[test]
fn a_client_has_all_at_its_end(rt: HostRuntime) -> Result<(), Fail> {
    let mut out = Vec::new(rt.alloc());
    let asks = (
        hears_a_datagram(rt.alloc(), CLOCK, &mut out)?,
        hears_an_image(rt.alloc(), &mut out)?,
    );
    assert!(rt; asks == (false, true) && out.as_slice() == LINES);
    Ok(())
}

// A client that holds four messages at most.
fn client_of(alloc: Global) -> Result<UnitClient, OutOfMemory> {
    let Some(limit) = HoldLimit::of(4) else {
        unreachable!();
    };
    begin(alloc, limit)
}

// Whether the client that has heard the datagram lacks something, and its line.
fn hears_a_datagram(
    alloc: Global,
    datagram: &[u8],
    out: &mut Vec<u8>,
) -> Result<bool, OutOfMemory> {
    let mut client = client_of(alloc)?;
    hear_datagram(&mut client, datagram)?;
    let asks = asks_when_told_of_all(&mut client, 1);
    append_end(&client, 1, out)?;
    Ok(asks)
}

// Whether the client that has heard nothing lacks something, and its line after the image.
fn hears_an_image(alloc: Global, out: &mut Vec<u8>) -> Result<bool, OutOfMemory> {
    let mut client = client_of(alloc)?;
    let asks = asks_when_told_of_all(&mut client, 1);
    hear_clock(alloc, &mut client)?;
    append_end(&client, 2, out)?;
    Ok(asks)
}

// Hears the image of that message.
fn hear_clock(alloc: Global, client: &mut UnitClient) -> Result<(), OutOfMemory> {
    let mut raws = RawList::make(alloc);
    raws.push_bytes(&CLOCK[8..14])?;
    hear_all(client, 1, 0, raws)
}
