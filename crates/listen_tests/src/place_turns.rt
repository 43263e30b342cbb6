//! The turns of a venue's input and two places.

use std::process::Abort;
use std::rt::HostRuntime;
use venue_turns::{Due, VenueTurns};

// What is told of a call that was made.
#[derive(Clone, Copy)]
enum Told {
    Nothing,
    Woken,
    Second,
    Read,
    InputIsQuiet,
    InputEnded,
    LetIn(u16),
    NobodyCame(u16),
    Took(u16),
    PlaceIsQuiet(u16),
    Wrote(u16),
    Full(u16),
    Ended(u16),
}

fn tell(turns: &mut VenueTurns, told: Told) {
    match told {
        Told::Nothing => {}
        Told::Woken => turns.woken(),
        Told::Second => turns.second(),
        Told::Read => turns.read(),
        Told::InputIsQuiet => turns.input_is_quiet(),
        Told::InputEnded => turns.input_ended(),
        Told::LetIn(place) => turns.let_in(place),
        Told::NobodyCame(place) => turns.nobody_came(place),
        Told::Took(place) => turns.took(place),
        Told::PlaceIsQuiet(place) => turns.place_is_quiet(place),
        Told::Wrote(place) => turns.wrote(place),
        Told::Full(place) => turns.full(place),
        Told::Ended(place) => turns.ended(place),
    }
}

// Whether the venue's end is shut at the place whose turn it is, how many bytes wait for its
// client, the call that is then due, and what is told of that.
type Step = (bool, usize, Option<Due>, Told);

// The input gives a piece, and then it is at its end. A client comes to place 1, takes a byte of
// two, and has no room for the other.
const A_CLIENT_COMES: [Step; 16] = [
    (true, 0, Some(Due::Wait(false)), Told::Woken),
    (true, 0, Some(Due::Read), Told::Read),
    (true, 0, Some(Due::Read), Told::InputIsQuiet),
    (true, 0, Some(Due::Accept(0)), Told::NobodyCame(0)),
    (true, 0, Some(Due::Accept(1)), Told::LetIn(1)),
    (false, 0, Some(Due::Take(1)), Told::Took(1)),
    (false, 2, Some(Due::Take(1)), Told::PlaceIsQuiet(1)),
    (false, 2, Some(Due::Put(1)), Told::Wrote(1)),
    (false, 1, Some(Due::Put(1)), Told::Full(1)),
    (true, 0, Some(Due::Wait(false)), Told::Woken),
    (true, 0, Some(Due::Read), Told::InputEnded),
    (true, 0, Some(Due::Accept(0)), Told::NobodyCame(0)),
    (false, 1, Some(Due::Take(1)), Told::PlaceIsQuiet(1)),
    (false, 1, Some(Due::Put(1)), Told::Full(1)),
    (true, 0, Some(Due::Wait(false)), Told::Second),
    (true, 0, Some(Due::Accept(0)), Told::NobodyCame(0)),
];

// A second in which it has no room.
const IT_STALLS: [Step; 4] = [
    (false, 1, Some(Due::Take(1)), Told::PlaceIsQuiet(1)),
    (false, 1, Some(Due::Put(1)), Told::Full(1)),
    (true, 0, Some(Due::Wait(false)), Told::Second),
    (true, 0, Some(Due::Accept(0)), Told::NobodyCame(0)),
];

// It has had none for five: it is closed. The next one gives what shuts its end, takes the byte
// that waits, and is closed too. For one at place 0 nothing waits, and then too much does.
const OTHERS_COME: [Step; 18] = [
    (false, 1, Some(Due::Close(1)), Told::Ended(1)),
    (true, 0, Some(Due::Wait(false)), Told::Woken),
    (true, 0, Some(Due::Accept(0)), Told::LetIn(0)),
    (false, 0, Some(Due::Take(0)), Told::PlaceIsQuiet(0)),
    (false, 0, None, Told::Nothing),
    (true, 0, Some(Due::Accept(1)), Told::LetIn(1)),
    (false, 0, Some(Due::Take(1)), Told::Took(1)),
    (true, 1, None, Told::Nothing),
    (true, 1, Some(Due::Put(1)), Told::Wrote(1)),
    (true, 0, Some(Due::Close(1)), Told::Ended(1)),
    (true, 0, Some(Due::Wait(false)), Told::Woken),
    (false, 1_048_576, Some(Due::Take(0)), Told::PlaceIsQuiet(0)),
    (false, 1_048_576, Some(Due::Put(0)), Told::Full(0)),
    (true, 0, Some(Due::Accept(1)), Told::NobodyCame(1)),
    (true, 0, Some(Due::Wait(false)), Told::Woken),
    (false, 1_048_577, Some(Due::Close(0)), Told::Ended(0)),
    (true, 0, Some(Due::Accept(1)), Told::NobodyCame(1)),
    (true, 0, Some(Due::Wait(false)), Told::Woken),
];

fn follow<R: Abort>(rt: &R, turns: &mut VenueTurns, steps: &[Step]) {
    for (shut, waiting, due, told) in steps {
        assert!(rt; turns.due(*shut, *waiting) == *due);
        tell(turns, *told);
    }
}

#[test]
fn each_place_has_its_turn(rt: HostRuntime) {
    let mut turns = VenueTurns::make(rt.alloc(), 2).expect(&rt, "memory");
    follow(&rt, &mut turns, &A_CLIENT_COMES);
    for _ in 0..4 {
        follow(&rt, &mut turns, &IT_STALLS);
    }
    follow(&rt, &mut turns, &OTHERS_COME);
}
