//! The tokens by which a wait tells what may have something.

ghost use Rattle.std.specs.Prelude.{◌≡◌, ◌<◌, ◌^◌, ℕ};
ghost use Rattle.venue_sockets.specs.layers.Tokens.{door_number, input_number, place_number};

use line_sockets::INPUT;
use mio::Token;

const FIRST_DOOR: usize = 1;

// Doors are numbered by a u16.
const FIRST_PLACE: usize = 65_537;

/// What may have something.
#[derive(Clone, Copy, PartialEq, Eq)]
pub enum Told {
    Input,
    Door(usize),
    Place(usize),
}

/// The token of a door.
pub(crate) fn door_token(door: u16) -> Token
    ensures { result.0 ≡ door_number door }
{
    Token(FIRST_DOOR + usize::from(door))
}

/// The token of a place.
pub(crate) fn place_token(place: u16) -> Token
    ensures { result.0 ≡ place_number place }
{
    Token(FIRST_PLACE + usize::from(place))
}

/// Whose token this is.
pub(crate) fn told_by(token: Token) -> Told
    ensures input { token.0 ≡ input_number → result ≡ Told.Input }
    ensures door { (door : ℕ) → door < 2 ^ 16 → token.0 ≡ door_number door
        → result ≡ Told.Door door }
    ensures place { (place : ℕ) → token.0 ≡ place_number place → result ≡ Told.Place place }
{
    if token == INPUT {
        Told::Input
    } else if token.0 < FIRST_PLACE {
        Told::Door(token.0 - FIRST_DOOR)
    } else {
        Told::Place(token.0 - FIRST_PLACE)
    }
}
