//! A client's end beside a venue's end: the test carries what the venue hands out, and loses some.

use crate::venue_ends::made;
use client_end::{Ask, ClientEnd, Status};
use pitch_fields::HoldLimit;
use pitch_text::Command;
use served_laws::book_beside;
use std::alloc::Global;
use std::process::Abort;
use unit_packets::{DatagramList, view_block};
use venue_end::{Account, VenueEnd};

// The number of the session at the venue's end.
const SESSION: u32 = 9;

// A client's end of unit 1.
fn client_of(rt: &impl Abort, alloc: Global) -> ClientEnd {
    let account = Account {
        sub: *b"0001",
        user: *b"FEED",
        password: *b"PITCH     ",
    };
    let limit = HoldLimit::of(16).expect(rt, "a limit");
    ClientEnd::make(alloc, 1, &account, limit).expect(rt, "memory")
}

// The datagram of the second 33 is lost, and the heartbeat behind it comes.
fn loses_one(rt: &impl Abort, alloc: Global, venue: &mut VenueEnd, client: &mut ClientEnd) {
    assert!(rt; venue.accept(&Command::Time { second: 33 }) == Ok(1));
    let mut lost = DatagramList::make(alloc);
    assert!(rt; venue.flush(&mut lost) == Ok(1));
    let beat = venue.beat();
    let block = view_block(&beat).expect(rt, "a block");
    client.hear_block(&block).expect(rt, "memory");
    assert!(rt; client.status() == Status::Behind { n: 0, top: 1 });
}

// What waits for the client comes to it, five bytes at a time.
fn carry_down(rt: &impl Abort, venue: &mut VenueEnd, client: &mut ClientEnd) {
    let said = venue.said_by_spin(SESSION);
    let count = said.len();
    for piece in said.chunks(5) {
        client.take_spin(piece).expect(rt, "memory");
    }
    venue.put_by_spin(SESSION, count);
}

// The client logs in, and is told of the image of all messages.
fn logs_in(rt: &impl Abort, alloc: Global, venue: &mut VenueEnd, client: &mut ClientEnd) {
    let mut up = Vec::new(alloc);
    client.connect_spin(&mut up).expect(rt, "memory");
    venue.connect_spin(SESSION).expect(rt, "memory");
    venue.take_spin(SESSION, &up).expect(rt, "memory");
    assert!(rt; venue.advertise() == Ok(1));
    carry_down(rt, venue, client);
}

// At the next second it asks for that image, which comes.
fn gets_the_image(rt: &impl Abort, alloc: Global, venue: &mut VenueEnd, client: &mut ClientEnd) {
    let mut to_proxy = Vec::new(alloc);
    let mut up = Vec::new(alloc);
    let ask = client.second(&mut to_proxy, &mut up).expect(rt, "memory");
    assert!(rt; ask == Some(Ask::Spin { sequence: 1 }));
    venue.take_spin(SESSION, &up).expect(rt, "memory");
    assert!(rt; venue.pump_spin(SESSION) == Ok(true));
    assert!(rt; venue.pump_spin(SESSION) == Ok(false));
    carry_down(rt, venue, client);
}

#[test]
fn a_client_comes_to_the_book_of_a_venue(rt: HostRuntime) {
    let mut venue = made(&rt, rt.alloc());
    let mut client = client_of(&rt, rt.alloc());
    loses_one(&rt, rt.alloc(), &mut venue, &mut client);
    logs_in(&rt, rt.alloc(), &mut venue, &mut client);
    gets_the_image(&rt, rt.alloc(), &mut venue, &mut client);
    assert!(rt; client.status() == Status::Current { n: 1 });
    assert!(rt; book_beside(&client, &venue).second() == Some(33));
    drop(client);
    drop(venue);
}
