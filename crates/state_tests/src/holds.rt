//! Holds: what becomes of each message that is offered, and what is left after a jump.

use hold_buffer::{Hold, Offer};
use pitch_fields::HoldLimit;
use pitch_messages::Raw;
use std::process::Abort;

// A hold of so many places, in ample memory.
fn hold_of<R: Abort + AllocGlobal>(rt: &R, places: u32) -> Hold {
    let limit = HoldLimit::of(places).expect(rt, "a limit");
    Hold::make(rt.alloc(), limit).expect(rt, "memory")
}

// Offers a message under each of some sequences below 100, and compares what becomes of it.
fn offer_all(rt: &impl Abort, hold: &mut Hold, offers: &[(u32, Offer)]) {
    let raw = Raw::from_bytes(b"\x03\x99\x07").expect(rt, "a raw");
    for (sequence, offer) in offers {
        assert!(rt; *sequence < 100);
        assert!(rt; hold.offer(*sequence, &raw) == *offer);
    }
}

// Jumps to a floor that is not below the one so far.
fn jump(rt: &impl Abort, hold: &mut Hold, floor: u32) {
    assert!(rt; hold.floor() <= floor);
    hold.jump(floor);
}

// Whether the message behind the floor is held, and no other behind it.
fn pops_one(hold: &mut Hold) -> bool {
    hold.pop_next().is_some() && hold.pop_next().is_none()
}

#[test]
fn a_full_hold_keeps_what_overflows_it(rt: HostRuntime) {
    let mut hold = hold_of(&rt, 2);
    let offers = [
        (3, Offer::Kept),
        (3, Offer::Repeat),
        (5, Offer::Kept),
        (7, Offer::Overflowed),
    ];
    offer_all(&rt, &mut hold, &offers);
    assert!(rt; (hold.len(), hold.first()) == (1, Some(7)));
    offer_all(&rt, &mut hold, &[(1, Offer::Next), (1, Offer::Old)]);
    jump(&rt, &mut hold, 6);
    assert!(rt; pops_one(&mut hold));
}

#[test]
fn a_jump_drops_what_it_passes(rt: HostRuntime) {
    let mut hold = hold_of(&rt, 3);
    let offers = [(9, Offer::Kept), (5, Offer::Kept), (7, Offer::Kept)];
    offer_all(&rt, &mut hold, &offers);
    assert!(rt; (hold.len(), hold.first()) == (3, Some(5)));
    offer_all(&rt, &mut hold, &[(1, Offer::Next)]);
    jump(&rt, &mut hold, 5);
    assert!(rt; hold.len() == 2 && hold.pop_next().is_none());
    offer_all(&rt, &mut hold, &[(6, Offer::Next)]);
    assert!(rt; pops_one(&mut hold) && hold.len() == 1);
}
