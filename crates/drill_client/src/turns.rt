//! One unit's drill on one thread: a market serves the client in turns.

ghost use Rattle.std.specs.Prelude.{◌≡◌, ◌-◌, ◌≤◌, ◌++◌, ℕ, List, [], length, Some, OnOk, OnErr};
ghost use Rattle.std.specs.Prelude.{IfOk};
ghost use Rattle.std.specs.List.{AllByRecursion};
ghost use Rattle.pitch_model.specs.History.{Entry, Raw as RawSaid};
ghost use Rattle.heard_items.specs.Datagrams.{IsPiece};
ghost use Rattle.unit_packets.specs.Packing.{bytes_in};
ghost use Rattle.venue_core.specs.Plan.{plan};
ghost use Rattle.venue_core.specs.Planned.{most_planned};
ghost use Rattle.drill_client.specs.layers.Ending.{IsAtEnd};
ghost use Rattle.unit_market.specs.Markets.{Journal, MarketHas, kept_view};
ghost use Rattle.unit_market.specs.Views.{new_journal};
ghost use Rattle.unit_market.specs.Views.{image_view};
ghost use Rattle.drill_client.specs.layers.Following.{Follows, ImageParts, IsImageOf, FollowsWith};
ghost use Rattle.drill_client.specs.DrillText.{drill_line};
ghost use Rattle.drill_client.specs.layers.Limits.{most_drilled, drill_kept};
ghost use Rattle.drill_client.specs.layers.Answered.{heard_of_gap, heard_of_spin, heard_of_ask};
ghost use Rattle.drill_client.specs.layers.Answered.{heard_of_copy, heard_after_copy};
ghost use Rattle.drill_client.specs.layers.Played.{command_datagrams, is_round, with_round};
ghost use Rattle.drill_client.specs.layers.Played.{heard_of_round};
ghost use Rattle.drill_client.specs.layers.Played.{heard_of_command, counted_with, plain_history};
ghost use Rattle.drill_client.specs.layers.Turns.{HasPlayed, IsPlaying};

use crate::ending::{append_end, asks_when_told_of_all, hear_all};
use crate::following::{
    begin, count_datagram, hear_advertised, hear_datagrams, hear_gap_reply, hear_image,
    hear_no_image,
};
use client_core::UnitClient;
use gap_store::{Found, GapLookup};
use heard_items::laws::{packed_messages_are_pieces, slices_are_the_venues};
use pitch_fields::{HoldLimit, OutOfMemory};
use pitch_messages::{ByteList, RawList};
use pitch_model::Ask;
use pitch_model::laws::venues_only_grow;
use spin_server::{ImageLookup, Imaged};
use std::alloc::Global;
use unit_market::Market;
use unit_packets::DatagramList;
use venue_core::{VenueError, lost, plan_command, plan_is_accepted, plan_is_in_order};

/// How many messages a drill's gap stores keep, and how many its clients hold.
pub const KEPT: u32 = 4096;

/// The limit of what a drill's clients hold.
pub fn drill_hold() -> HoldLimit
    ensures { result ≡ drill_kept }
{
    let Some(limit) = HoldLimit::of(KEPT) else {
        unreachable!();
    };
    limit
}

/// An image is advertised after every so many commands, and after the last.
pub const ROUND: u32 = 1000;

/// Which messages a unit's drill has: the first `count` of the plan of its number and unit.
#[derive(Clone, Copy)]
struct Course {
    number: u64,
    unit: u8,
    count: u32,
}

// The market accepts command `index` of the plan.
fn accept(market: &mut Market, course: Course, index: u32) -> Result<(), OutOfMemory>
    requires index { (1 ≤ index) × (index ≤ most_planned) }
    requires played { HasPlayed market.old course.number course.unit course.count (index - 1) }
    ensures { OnOk result
        (IsPlaying market.new course.number course.unit course.count index (index - 1)) }
{
    plan_is_accepted();
    match market.accept(&plan_command(course.number, course.unit, index)) {
        Ok(_) => Ok(()),
        Err(VenueError::OutOfMemory) => Err(OutOfMemory),
        Err(_) => unreachable!(),
    }
}

// Sends the message that was accepted last.
fn send(
    alloc: Global,
    market: &mut Market,
    course: Course,
    index: u32,
) -> Result<DatagramList, OutOfMemory>
    requires index { 1 ≤ index }
    requires playing { IsPlaying market.old course.number course.unit course.count index (index - 1) }
    ensures playing { OnOk result
        (IsPlaying market.new course.number course.unit course.count index index) }
    ensures datagrams { IfOk result
        (λ list. bytes_in list.items ≡ command_datagrams course.number course.unit index) }
    ensures pieces { IfOk result (λ list. AllByRecursion
        (IsPiece (plan course.number course.unit index) course.unit) (bytes_in list.items)) }
{
    plan_is_in_order();
    let mut out = DatagramList::make(alloc);
    market.flush(&mut out)?;
    Ok(out)
}

// Answers a gap ask: with the range where all of it is kept.
fn answer_gap(
    alloc: Global,
    market: &mut Market,
    client: &mut UnitClient,
    unit: u8,
    first: u32,
    count: u16,
) -> Result<(), OutOfMemory>
    ensures same { market.new ≡ market.old }
    // Of every venue that begins with the messages of the market.
    ensures heard { OnOk result ((j : Journal) (more : List RawSaid) → MarketHas market.old j
        → FollowsWith client.old client.new (j.messages ++ more)
        (heard_of_gap (kept_view j) unit first count)) }
{
    slices_are_the_venues();
    packed_messages_are_pieces();
    if first == 0 {
        hear_gap_reply(client, false);
        return Ok(());
    }
    if count == 0 {
        hear_gap_reply(client, false);
        return Ok(());
    }
    let mut out = DatagramList::make(alloc);
    match market.pack(alloc, unit, first, count, &mut out)? {
        Found::Kept => {
            hear_gap_reply(client, true);
            hear_datagrams(client, out.as_slice())?;
            Ok(())
        }
        Found::Ahead { last: _ } => {
            hear_gap_reply(client, false);
            Ok(())
        }
        Found::NotKept { first: _ } => {
            hear_gap_reply(client, false);
            Ok(())
        }
    }
}

// Answers a spin ask: with the image where it is served.
fn answer_spin(
    alloc: Global,
    market: &mut Market,
    client: &mut UnitClient,
    sequence: u32,
) -> Result<(), OutOfMemory>
    ensures same { market.new ≡ market.old }
    // Of every venue that begins with the messages of the market.
    ensures heard { OnOk result ((j : Journal) (more : List RawSaid) → MarketHas market.old j
        → FollowsWith client.old client.new (j.messages ++ more)
        (heard_of_spin (image_view j.messages j.advertised) sequence)) }
{
    venues_only_grow();
    let mut raws = RawList::make(alloc);
    match market.image(sequence, &mut raws)? {
        Imaged::Image { orders } => {
            hear_image(client, sequence, orders, raws)?;
            Ok(())
        }
        Imaged::NotAdvertised => {
            hear_no_image(client, sequence);
            Ok(())
        }
    }
}

// Appends the image through the last message of a market, and answers how many orders it has.
fn append_last(market: &mut Market, out: &mut RawList) -> Result<u32, OutOfMemory>
    requires { (j : Journal) × MarketHas market.old j }
    // Of the messages of the market.
    ensures { IfOk result (λ orders. (j : Journal) → MarketHas market.old j
        → out.old.items ≡ [] → IsImageOf j.messages
        (record { sequence = length j.messages; orders = orders; raws = out.new.items })) }
{
    let sequence = market.advertise()?;
    match market.image(sequence, out)? {
        Imaged::Image { orders } => Ok(orders),
        Imaged::NotAdvertised => unreachable!(),
    }
}

// Whether it is time to advertise: after every 1,000th command, and after the last.
fn is_round(index: u32, count: u32) -> bool
    ensures { result ≡ is_round index count }
{
    index % ROUND == 0 || index == count
}

// Advertises where it is time after command `index`, and the client hears of it.
fn advertise(
    market: &mut Market,
    client: &mut UnitClient,
    index: u32,
    count: u32,
) -> Result<(), OutOfMemory>
    // Where its messages are those of `index` commands.
    ensures market { OnOk result ((j : Journal) → MarketHas market.old j
        → length j.messages ≡ index → MarketHas market.new
        (record j { advertised = with_round j.advertised index count })) }
    // Of every venue that begins with the messages of the market, where these are those of `index`
    // commands.
    ensures heard { OnOk result ((j : Journal) (more : List RawSaid) → MarketHas market.old j
        → length j.messages ≡ index
        → FollowsWith client.old client.new (j.messages ++ more) (heard_of_round index count)) }
{
    if !is_round(index, count) {
        return Ok(());
    }
    let sequence = market.advertise()?;
    hear_advertised(client, sequence);
    Ok(())
}

// Answers what the client asks.
fn answer_ask(
    alloc: Global,
    market: &mut Market,
    client: &mut UnitClient,
    unit: u8,
    ask: Ask,
) -> Result<(), OutOfMemory>
    ensures same { market.new ≡ market.old }
    // Of every venue that begins with the messages of the market.
    ensures heard { OnOk result ((j : Journal) (more : List RawSaid) → MarketHas market.old j
        → FollowsWith client.old client.new (j.messages ++ more)
        (heard_of_ask (kept_view j) (image_view j.messages j.advertised) unit (Some ask))) }
{
    match ask {
        Ask::Gap { first, count } => {
            answer_gap(alloc, market, client, unit, first, count)?;
            Ok(())
        }
        Ask::Spin { sequence } => {
            answer_spin(alloc, market, client, sequence)?;
            Ok(())
        }
    }
}

// The same, if it asks anything.
fn answer(
    alloc: Global,
    market: &mut Market,
    client: &mut UnitClient,
    unit: u8,
    ask: Option<Ask>,
) -> Result<(), OutOfMemory>
    ensures same { market.new ≡ market.old }
    // Of every venue that begins with the messages of the market.
    ensures heard { OnOk result ((j : Journal) (more : List RawSaid) → MarketHas market.old j
        → FollowsWith client.old client.new (j.messages ++ more)
        (heard_of_ask (kept_view j) (image_view j.messages j.advertised) unit ask)) }
{
    match ask {
        None => Ok(()),
        Some(ask) => {
            answer_ask(alloc, market, client, unit, ask)?;
            Ok(())
        }
    }
}

// The client hears the copy of datagrams on one line, unless it is lost, and is answered.
fn hear_copy(
    alloc: Global,
    market: &mut Market,
    client: &mut UnitClient,
    heard: &mut u8,
    unit: u8,
    datagrams: &[ByteList],
    is_lost: bool,
) -> Result<(), OutOfMemory>
    ensures same { market.new ≡ market.old }
    // Of every venue that begins with the messages of the market.
    ensures heard { OnOk result ((j : Journal) (more : List RawSaid) → MarketHas market.old j
        → AllByRecursion (IsPiece j.messages unit) (bytes_in datagrams.now)
        → (H : ℕ) (E : List Entry) → Follows client.old H (j.messages ++ more) E
        → Follows client.new H (j.messages ++ more)
        (heard_of_copy (kept_view j) (image_view j.messages j.advertised)
        unit H heard.old is_lost (bytes_in datagrams.now) E)) }
    ensures count { OnOk result (heard.new ≡ heard_after_copy is_lost heard.old) }
{
    if is_lost {
        return Ok(());
    }
    hear_datagrams(client, datagrams)?;
    let ask = count_datagram(client, heard);
    answer(alloc, market, client, unit, ask)?;
    Ok(())
}

// Command `index` of the plan: it is accepted and sent on both lines, and the client hears what is
// not lost.
fn play(
    alloc: Global,
    market: &mut Market,
    client: &mut UnitClient,
    heard: &mut u8,
    course: Course,
    index: u32,
) -> Result<(), OutOfMemory>
    requires index { (1 ≤ index) × (index ≤ course.count) }
    requires count { course.count ≤ most_drilled }
    requires played { HasPlayed market.old course.number course.unit course.count (index - 1) }
    ensures played { OnOk result
        (HasPlayed market.new course.number course.unit course.count index) }
    ensures count { OnOk result
        (heard.new ≡ counted_with course.number course.unit index heard.old) }
    ensures heard { OnOk result ((E : List Entry)
        → Follows client.old drill_kept (plan course.number course.unit course.count) E
        → Follows client.new drill_kept (plan course.number course.unit course.count)
        (heard_of_command course.number course.unit course.count index heard.old E)) }
{
    let Course {
        number,
        unit,
        count,
    } = course;
    accept(market, course, index)?;
    let sent = send(alloc, market, course, index)?;
    let datagrams = sent.as_slice();
    hear_copy(
        alloc,
        market,
        client,
        heard,
        unit,
        datagrams,
        lost(number, unit, index, 1),
    )?;
    hear_copy(
        alloc,
        market,
        client,
        heard,
        unit,
        datagrams,
        lost(number, unit, index, 2),
    )?;
    advertise(market, client, index, count)?;
    Ok(())
}

// The client hears of all messages of the market, and takes the image of all where it lacks some.
fn end(
    alloc: Global,
    market: &mut Market,
    client: &mut UnitClient,
    course: Course,
) -> Result<(), OutOfMemory>
    requires count { course.count ≤ most_drilled }
    requires played { HasPlayed market.old course.number course.unit course.count course.count }
    requires heard { Follows client.old drill_kept (plan course.number course.unit course.count)
        (plain_history course.number course.unit course.count course.count) }
    ensures { OnOk result
        (IsAtEnd client.new drill_kept (plan course.number course.unit course.count)) }
{
    plan_is_in_order();
    if !asks_when_told_of_all(client, course.count) {
        return Ok(());
    }
    let mut raws = RawList::make(alloc);
    let orders = append_last(market, &mut raws)?;
    hear_all(client, course.count, orders, raws)?;
    Ok(())
}

// Plays all commands, with a market that has accepted nothing and a client that begins.
fn play_all(
    alloc: Global,
    market: &mut Market,
    client: &mut UnitClient,
    course: Course,
) -> Result<(), OutOfMemory>
    requires count { (1 ≤ course.count) × (course.count ≤ most_drilled) }
    requires new { MarketHas market.old (new_journal course.unit drill_kept) }
    requires begun { Follows client.old drill_kept (plan course.number course.unit course.count)
        (plain_history course.number course.unit course.count 0) }
    ensures played { OnOk result
        (HasPlayed market.new course.number course.unit course.count course.count) }
    // It has heard just what the commands bring, and what it was answered.
    ensures heard { OnOk result (Follows client.new drill_kept
        (plan course.number course.unit course.count)
        (plain_history course.number course.unit course.count course.count)) }
{
    let mut heard = 0;
    'commands: for before in 0..course.count {
        play(alloc, market, client, &mut heard, course, before + 1)?;
    }
    Ok(())
}

// The client takes what it lacks after all commands, and the unit's line is appended.
fn end_with(
    alloc: Global,
    market: &mut Market,
    client: &mut UnitClient,
    course: Course,
    out: &mut Vec<u8>,
) -> Result<(), OutOfMemory>
    requires count { (1 ≤ course.count) × (course.count ≤ most_drilled) }
    requires played { HasPlayed market.old course.number course.unit course.count course.count }
    requires heard { Follows client.old drill_kept (plan course.number course.unit course.count)
        (plain_history course.number course.unit course.count course.count) }
    ensures ok { OnOk result (out.new.items
        ≡ out.old.items ++ drill_line course.number course.unit course.count) }
    ensures err { OnErr result (out.new.items ≡ out.old.items) }
{
    end(alloc, market, client, course)?;
    append_end(client, course.unit, out)?;
    Ok(())
}

// The same from the first command on, with a market that has accepted nothing and a client that
// begins.
fn play_with(
    alloc: Global,
    market: &mut Market,
    client: &mut UnitClient,
    course: Course,
    out: &mut Vec<u8>,
) -> Result<(), OutOfMemory>
    requires count { (1 ≤ course.count) × (course.count ≤ most_drilled) }
    requires new { MarketHas market.old (new_journal course.unit drill_kept) }
    requires begun { Follows client.old drill_kept (plan course.number course.unit course.count)
        (plain_history course.number course.unit course.count 0) }
    ensures ok { OnOk result (out.new.items
        ≡ out.old.items ++ drill_line course.number course.unit course.count) }
    ensures err { OnErr result (out.new.items ≡ out.old.items) }
{
    play_all(alloc, market, client, course)?;
    end_with(alloc, market, client, course, out)
}

// The same with a client that is made for it. What is large is dropped by a call, which is cheaper
// to prove than a drop at each end.
fn play_to_end(
    alloc: Global,
    market: &mut Market,
    course: Course,
    out: &mut Vec<u8>,
) -> Result<(), OutOfMemory>
    requires count { (1 ≤ course.count) × (course.count ≤ most_drilled) }
    requires new { MarketHas market.old (new_journal course.unit drill_kept) }
    ensures ok { OnOk result (out.new.items
        ≡ out.old.items ++ drill_line course.number course.unit course.count) }
    ensures err { OnErr result (out.new.items ≡ out.old.items) }
{
    plan_is_in_order();
    let mut client = begin(alloc, drill_hold())?;
    let played = play_with(alloc, market, &mut client, course, out);
    drop(client);
    played
}

/// Plays a unit's drill on one thread: a venue accepts the first `count` commands of the plan, and
/// a client hears what is not lost of the datagrams on two lines, and asks for the rest. Appends
/// the unit's line: its client is current at the last message, with the number of open orders and
/// their shares.
///
/// A drill has 1 to 100,000 commands. `out` is as before after OutOfMemory.
pub fn drill_plain(
    alloc: Global,
    number: u64,
    unit: u8,
    count: u32,
    out: &mut Vec<u8>,
) -> Result<(), OutOfMemory>
    requires { (1 ≤ count) × (count ≤ most_drilled) }
    ensures ok { OnOk result (out.new.items ≡ out.old.items ++ drill_line number unit count) }
    ensures err { OnErr result (out.new.items ≡ out.old.items) }
{
    let course = Course {
        number,
        unit,
        count,
    };
    let mut market = Market::make(alloc, unit, KEPT)?;
    let played = play_to_end(alloc, &mut market, course, out);
    drop(market);
    played
}
