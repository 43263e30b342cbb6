//! The turns of two lines and two peers, of which one is refused at first.

use live_turns::{Due, LiveTurns};
use std::rt::HostRuntime;

// What is told of a call that was made.
#[derive(Clone, Copy)]
enum Told {
    Nothing,
    Woken,
    Second,
    Received(u16),
    LineIsQuiet(u16),
    Begun(u16),
    Took(u16),
    PeerIsQuiet(u16),
    Wrote(u16),
    Full(u16),
    Ended(u16),
}

fn tell(turns: &mut LiveTurns, told: Told) {
    match told {
        Told::Nothing => {}
        Told::Woken => turns.woken(),
        Told::Second => turns.second(),
        Told::Received(line) => turns.received(line),
        Told::LineIsQuiet(line) => turns.line_is_quiet(line),
        Told::Begun(peer) => turns.begun(peer),
        Told::Took(peer) => turns.took(peer),
        Told::PeerIsQuiet(peer) => turns.peer_is_quiet(peer),
        Told::Wrote(peer) => turns.wrote(peer),
        Told::Full(peer) => turns.full(peer),
        Told::Ended(peer) => turns.ended(peer),
    }
}

// Whether the link is open of the peer whose turn it is, how many bytes wait for it, the call that
// is then due, and what is told of that.
type Step = (bool, usize, Option<Due>, Told);

// Line 0 has a datagram. Peer 0 takes two of the bytes that wait, and has some; then its link is
// shut. Peer 1 is refused twice: it is asked again after one second, and after two more.
const A_RUN: [Step; 27] = [
    (false, 0, Some(Due::Wait(false)), Told::Woken),
    (false, 0, Some(Due::Receive(0)), Told::Received(0)),
    (false, 0, Some(Due::Receive(0)), Told::LineIsQuiet(0)),
    (false, 0, Some(Due::Receive(1)), Told::LineIsQuiet(1)),
    (false, 0, Some(Due::Open(0)), Told::Begun(0)),
    (true, 3, Some(Due::Put(0)), Told::Wrote(0)),
    (true, 1, Some(Due::Put(0)), Told::Full(0)),
    (false, 0, Some(Due::Open(1)), Told::Ended(1)),
    (false, 0, Some(Due::Wait(false)), Told::Second),
    (false, 0, Some(Due::Receive(0)), Told::LineIsQuiet(0)),
    (false, 0, Some(Due::Receive(1)), Told::LineIsQuiet(1)),
    (true, 1, Some(Due::Take(0)), Told::Took(0)),
    (true, 1, Some(Due::Take(0)), Told::PeerIsQuiet(0)),
    (true, 0, None, Told::Nothing),
    (false, 0, Some(Due::Open(1)), Told::Ended(1)),
    (false, 0, Some(Due::Wait(false)), Told::Second),
    (false, 0, Some(Due::Receive(0)), Told::LineIsQuiet(0)),
    (false, 0, Some(Due::Receive(1)), Told::LineIsQuiet(1)),
    (false, 0, Some(Due::Close(0)), Told::Ended(0)),
    (false, 0, None, Told::Nothing),
    (false, 0, Some(Due::Wait(false)), Told::Second),
    (false, 0, Some(Due::Receive(0)), Told::LineIsQuiet(0)),
    (false, 0, Some(Due::Receive(1)), Told::LineIsQuiet(1)),
    (false, 0, Some(Due::Open(0)), Told::Ended(0)),
    (false, 0, Some(Due::Open(1)), Told::Begun(1)),
    (true, 0, None, Told::Nothing),
    (false, 0, Some(Due::Wait(false)), Told::Woken),
];

#[test]
fn each_has_its_turn(rt: HostRuntime) {
    let mut turns = LiveTurns::make(rt.alloc(), 2, 2).expect(&rt, "memory");
    for (has, waiting, due, told) in A_RUN {
        assert!(rt; turns.due(has, waiting) == due);
        tell(&mut turns, told);
    }
}
