//! A session of an end: a link where a connection stands, and what the client hears of it.

ghost use Rattle.std.specs.Prelude.{◌≡◌, ◌∷◌, ◌++◌, ℕ, List, Option, OnOk, OnErr, IsOk, None};
ghost use Rattle.std.specs.Prelude.{is_some};
ghost use Rattle.pitch_model.specs.History.{Entry, GrpDown, SpinDown};
ghost use Rattle.pitch_messages.specs.declared.session.SessionMessage.TheVariants.{GapRequest};
ghost use Rattle.pitch_messages.specs.declared.session.SessionMessage.TheVariants.{SpinRequest};
ghost use Rattle.session_ends.specs.Closing.{Setup};
ghost use Rattle.session_ends.specs.Events.{Event, Fed, Ticked, Asked};
ghost use Rattle.session_ends.specs.layers.Happening.{Happens};
ghost use Rattle.client_links.specs.Linking.{Lookups, NoLookup, LinkStands, link_tells};
ghost use Rattle.heard_items.specs.Heard.{heard_all};
ghost use Rattle.client_end.specs.Links.{gap_link, spin_link};
ghost use Rattle.client_end.specs.Sessions.{SessionState, fed_at, happened, heard_cut};
ghost use Rattle.client_end.specs.Sessions.{heard_in_part, link_happened, link_lost, link_settled};
ghost use Rattle.client_end.specs.Sessions.{link_took, place_says};
ghost use Rattle.client_end.specs.Came.{EndSetup, EndState, ask_sent, asks_proxy};
ghost use Rattle.client_end.specs.Came.{asks_spin_server};
ghost use Rattle.client_end.specs.Stands.{SessionStands};
ghost use Rattle.client_end.specs.Parts.{PartsAre, LinkIs, ClientHeard};
ghost use Rattle.client_end.specs.Stands.{HearsInPart, has_closed};

use crate::hearing::hear_told;
use client_core::UnitClient;
use client_links::{GapLink, ItemList, Link, Peer, ProxyPeer, SpinLink, SpinPeer};
use heard_items::Item;
use pitch_fields::OutOfMemory;
use pitch_model::Ask;
use std::alloc::Global;

/// A server to which a client has a session, and whose loss it hears.
pub trait CutPeer: Peer {
    /// What the client hears where the connection ends.
    ghost down: { Entry };

    /// The client hears that the connection has ended, for which it needs no memory.
    fn hear_down(client: &mut UnitClient)
        ensures has { (H : ℕ) (E : List Entry)
            → ClientHeard H client.old E → ClientHeard H client.new (down ∷ E) };
}

impl CutPeer for ProxyPeer {
    ghost down = { GrpDown };

    fn hear_down(client: &mut UnitClient) {
        match client.hear(&Item::GrpDown) {
            Ok(_change) => {}
            Err(_) => unreachable!(),
        }
    }
}

impl CutPeer for SpinPeer {
    ghost down = { SpinDown };

    fn hear_down(client: &mut UnitClient) {
        match client.hear(&Item::SpinDown) {
            Ok(_change) => {}
            Err(_) => unreachable!(),
        }
    }
}

// A link is fed bytes of its session, and the client hears what they tell.
fn feed_link<P: Peer>(
    alloc: Global,
    link: &mut Link<P>,
    client: &mut UnitClient,
    piece: &[u8],
) -> Result<(), OutOfMemory>
    // Of all that happened at the link: the bytes came too.
    ensures stands { OnOk result (Happens LinkStands link.old link.new (Fed piece.now NoLookup)) }
    ensures setup { link.new.setup ≡ link.old.setup }
    // Whatever the client heard before, it has then heard what the link tells of these bytes.
    ensures has { OnOk result ((H : ℕ) (es : List (Event Lookups)) (E : List Entry)
        → LinkStands link.old es → ClientHeard H client.old E → ClientHeard H client.new
        (heard_all (link_tells link.old.setup es piece.now) E)) }
    // After OutOfMemory it has heard no more than the first so many items of these.
    ensures err { OnErr result (HearsInPart link.old client.old client.new piece.now) }
{
    let mut items = ItemList::make(alloc);
    link.feed(piece, &mut items)?;
    hear_told(client, items.as_slice())?;
    Ok(())
}

// The same, where a connection stands.
fn feed_place<P: Peer>(
    alloc: Global,
    place: &mut Option<Link<P>>,
    client: &mut UnitClient,
    piece: &[u8],
) -> Result<(), OutOfMemory>
    ensures has { OnOk result ((H : ℕ) (setup : Setup) (session : SessionState)
        → SessionStands H setup place.old client.old session
        → SessionStands H setup place.new client.new
        (fed_at setup piece.now session.heard session.link)) }
    ensures err { OnErr result ((count : ℕ)
        × ((H : ℕ) (setup : Setup) (session : SessionState)
        → SessionStands H setup place.old client.old session → ClientHeard H client.new
        (heard_in_part setup piece.now count session.heard session.link))) }
    ensures there { is_some place.new ≡ is_some place.old }
    ensures none { place.old ≡ None → IsOk result }
{
    match place {
        None => Ok(()),
        Some(link) => {
            feed_link(alloc, link, client, piece)?;
            Ok(())
        }
    }
}

// Where a connection stands whose link has closed, it ends.
fn settle<P: CutPeer>(place: &mut Option<Link<P>>, client: &mut UnitClient)
    ensures has { (H : ℕ) (setup : Setup) (session : SessionState)
        → SessionStands H setup place.old client.old session
        → SessionStands H setup place.new client.new (link_settled setup P.down session) }
    ensures none { place.old ≡ None → place.new ≡ None }
{
    if !is_closed(place) {
        return;
    }
    *place = None;
    P::hear_down(client)
}

// Whether there is a link that has closed.
fn is_closed<P: Peer>(place: &Option<Link<P>>) -> bool
    ensures { result ≡ has_closed place.now }
{
    match place {
        None => false,
        Some(link) => link.closed().is_some(),
    }
}

/// Bytes came on a connection. Where its link closes by them, it ends, and where memory runs out.
pub fn hear_bytes<P: CutPeer>(
    alloc: Global,
    place: &mut Option<Link<P>>,
    client: &mut UnitClient,
    piece: &[u8],
) -> Result<(), OutOfMemory>
    ensures has { OnOk result ((H : ℕ) (setup : Setup) (session : SessionState)
        → SessionStands H setup place.old client.old session
        → SessionStands H setup place.new client.new
        (link_took setup P.down piece.now session)) }
    ensures err { OnErr result ((count : ℕ)
        × ((H : ℕ) (setup : Setup) (session : SessionState)
        → SessionStands H setup place.old client.old session
        → ClientHeard H client.new (link_lost setup P.down piece.now count session).heard)) }
    ensures err_none { OnErr result (place.new ≡ None) }
    ensures none { place.old ≡ None → IsOk result }
{
    match feed_place(alloc, place, client, piece) {
        Ok(()) => {
            settle(place, client);
            Ok(())
        }
        Err(error) => {
            hear_cut(place, client);
            Err(error)
        }
    }
}

/// A connection has ended, where one stood, whatever its link is.
pub fn hear_cut<P: CutPeer>(place: &mut Option<Link<P>>, client: &mut UnitClient)
    ensures has { (H : ℕ) (E : List Entry) (link : Option (List (Event Lookups)))
        → is_some place.old ≡ is_some link → ClientHeard H client.old E
        → ClientHeard H client.new (heard_cut P.down E link) }
    ensures none { place.new ≡ None }
{
    if !place.is_some() {
        return;
    }
    P::hear_down(client);
    *place = None;
}

// A second passes at a link, where a connection stands.
fn tick_place<P: Peer>(place: &mut Option<Link<P>>, said: &mut Vec<u8>) -> Result<(), OutOfMemory>
    ensures has { OnOk result ((setup : Setup) (link : Option (List (Event Lookups)))
        → LinkIs setup place.old link → LinkIs setup place.new (happened Ticked link)) }
    ensures says { OnOk result ((setup : Setup) (link : Option (List (Event Lookups)))
        → LinkIs setup place.old link
        → said.new.items ≡ said.old.items ++ place_says setup Ticked link) }
    ensures there { is_some place.new ≡ is_some place.old }
    ensures none { place.old ≡ None → IsOk result × (place.new ≡ None) }
{
    match place {
        None => Ok(()),
        Some(link) => link.tick(said),
    }
}

/// A second passes at a session. What its link says is appended; where it closes, it ends.
pub fn hear_second<P: CutPeer>(
    place: &mut Option<Link<P>>,
    client: &mut UnitClient,
    said: &mut Vec<u8>,
) -> Result<(), OutOfMemory>
    ensures has { OnOk result ((H : ℕ) (setup : Setup) (session : SessionState)
        → SessionStands H setup place.old client.old session
        → SessionStands H setup place.new client.new
        (link_settled setup P.down (link_happened Ticked session))) }
    ensures says { OnOk result ((setup : Setup) (link : Option (List (Event Lookups)))
        → LinkIs setup place.old link
        → said.new.items ≡ said.old.items ++ place_says setup Ticked link) }
    ensures err { OnErr result (client.new ≡ client.old) }
    ensures err_there { OnErr result (is_some place.new ≡ is_some place.old) }
    ensures none { place.old ≡ None → IsOk result × (place.new ≡ None) }
{
    tick_place(place, said)?;
    settle(place, client);
    Ok(())
}

// Asks the proxy for messages of a unit, where a connection stands.
fn ask_gap(
    place: &mut Option<GapLink>,
    unit: u8,
    first: u32,
    count: u16,
    said: &mut Vec<u8>,
) -> Result<(), OutOfMemory>
    ensures has { OnOk result ((setup : Setup) (link : Option (List (Event Lookups)))
        → LinkIs setup place.old link
        → LinkIs setup place.new (happened (Asked (GapRequest unit first count)) link)) }
    ensures says { OnOk result ((setup : Setup) (link : Option (List (Event Lookups)))
        → LinkIs setup place.old link → said.new.items
        ≡ said.old.items ++ place_says setup (Asked (GapRequest unit first count)) link) }
    ensures there { is_some place.new ≡ is_some place.old }
    ensures none { place.old ≡ None → IsOk result }
{
    match place {
        None => Ok(()),
        Some(link) => link.ask(unit, first, count, said),
    }
}

// Asks the Spin Server for an image, where a connection stands.
fn ask_image(
    place: &mut Option<SpinLink>,
    sequence: u32,
    said: &mut Vec<u8>,
) -> Result<(), OutOfMemory>
    ensures has { OnOk result ((setup : Setup) (link : Option (List (Event Lookups)))
        → LinkIs setup place.old link
        → LinkIs setup place.new (happened (Asked (SpinRequest sequence)) link)) }
    ensures says { OnOk result ((setup : Setup) (link : Option (List (Event Lookups)))
        → LinkIs setup place.old link → said.new.items
        ≡ said.old.items ++ place_says setup (Asked (SpinRequest sequence)) link) }
    ensures there { is_some place.new ≡ is_some place.old }
    ensures none { place.old ≡ None → IsOk result }
{
    match place {
        None => Ok(()),
        Some(link) => link.ask(sequence, said),
    }
}

/// What is asked for goes through the link of the server that has it, where a connection stands.
/// What the link says is appended.
pub fn ask_through(
    grp: &mut Option<GapLink>,
    spin: &mut Option<SpinLink>,
    unit: u8,
    ask: Option<Ask>,
    grp_said: &mut Vec<u8>,
    spin_said: &mut Vec<u8>,
) -> Result<(), OutOfMemory>
    ensures has { OnOk result ((s : EndSetup) (client : UnitClient) (now : EndState)
        → unit ≡ s.unit → PartsAre s client grp.old spin.old now
        → PartsAre s client grp.new spin.new (ask_sent s ask now)) }
    ensures says_grp { OnOk result ((s : EndSetup) (link : Option (List (Event Lookups)))
        → unit ≡ s.unit → LinkIs gap_link grp.old link
        → grp_said.new.items ≡ grp_said.old.items ++ asks_proxy s ask link) }
    ensures says_spin { OnOk result ((s : EndSetup) (link : Option (List (Event Lookups)))
        → LinkIs (spin_link s.unit) spin.old link
        → spin_said.new.items ≡ spin_said.old.items ++ asks_spin_server s ask link) }
    ensures grp_there { is_some grp.new ≡ is_some grp.old }
    ensures spin_there { is_some spin.new ≡ is_some spin.old }
    ensures none { grp.old ≡ None → spin.old ≡ None → IsOk result }
{
    match ask {
        None => Ok(()),
        Some(Ask::Gap { first, count }) => ask_gap(grp, unit, first, count, grp_said),
        Some(Ask::Spin { sequence }) => ask_image(spin, sequence, spin_said),
    }
}
