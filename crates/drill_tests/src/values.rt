//! Every word and reply that may cross to a client before the first message.

ghost use Rattle.std.specs.Prelude.{◌≡◌};

use client_core::UnitClient;
use drill_client::{Datagram, DrillRun, Image, Reached, Reply, Word, begin, hear_reply, hear_word};
use heard_items::laws::pieces_are_honest;
use pitch_fields::{HoldLimit, OutOfMemory};
use pitch_messages::RawList;
use pitch_model::Status;
use pitch_model::laws::images_leave_their_books;
use std::alloc::Global;
use std::marker::Brand;
use std::process::Abort;
use std::test::*;
use venue_core::Venue;

#[test]
fn words_and_replies_are_heard(rt: HostRuntime) -> Result<(), Fail> {
    start::<Brand, _>(&rt)
}

// The heartbeat before the first message.
fn beat<R: DrillRun>(alloc: Global) -> Result<Datagram<R>, OutOfMemory>
    requires { R.unit ≡ 1 }
{
    pieces_are_honest();
    let venue = Venue::make(alloc, 1);
    let heartbeat = venue.beat();
    Datagram::of_bytes(alloc, &heartbeat)
}

// The image before the first message.
fn no_orders<R: DrillRun>(alloc: Global) -> Image<R> {
    images_leave_their_books();
    Image::make(0, 0, RawList::make(alloc))
}

// Hears all that may cross before the first message. Answers whether the client was silent first,
// and current after the heartbeat and at the end.
fn hear_all_words<R: DrillRun>(alloc: Global, client: &mut UnitClient) -> Result<bool, OutOfMemory>
    requires { R.unit ≡ 1 }
{
    let silent = client.status() == Status::Silent;
    let heartbeat = beat::<R>(alloc)?;
    let again = heartbeat.again()?;
    hear_word(client, &Word::Sent(heartbeat))?;
    let current = is_current(client);
    hear_word(client, &Word::Advertised(Reached::<R>::make(0)))?;
    hear_word(client, &Word::<R>::Last)?;
    hear_all_replies(alloc, client, again)?;
    Ok(silent && current && is_current(client))
}

fn hear_all_replies<R: DrillRun>(
    alloc: Global,
    client: &mut UnitClient,
    again: Datagram<R>,
) -> Result<(), OutOfMemory>
    requires { R.unit ≡ 1 }
{
    let refused: Reply<R> = Reply::Gap { accepted: false };
    hear_reply(client, refused)?;
    hear_reply(client, Reply::Again(again))?;
    let none: Reply<R> = Reply::NoSpin { sequence: 0 };
    hear_reply(client, none)?;
    hear_reply(client, Reply::Spin(no_orders::<R>(alloc)))
}

fn is_current(client: &UnitClient) -> bool {
    client.status() == Status::Current { n: 0 }
}

// Picks the run. The client is dropped by a call, which is cheaper to prove than at each return.
fn start<R: DrillRun, W: Abort + AllocGlobal>(rt: &W) -> Result<(), Fail>
    requires { R.unit ≡ 1 }
{
    let limit = HoldLimit::of(4).expect(rt, "a limit");
    let mut client = begin(rt.alloc(), limit)?;
    let right = hear_all_words::<R>(rt.alloc(), &mut client);
    drop(client);
    assert!(rt; right?);
    Ok(())
}
