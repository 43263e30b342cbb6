//! The forms in which a stream is printed: `follow`, `show`, `relay` and `quotes`.

use pitch_fields::HoldLimit;

/// What is printed of a stream of blocks.
#[derive(Clone, Copy)]
pub enum StreamForm {
    /// A line for each block, and at the end the books of all units; each unit's hold has so many
    /// places.
    Follow { hold: HoldLimit },
    /// A line for each block and for each message.
    Show,
    /// The datagrams of a relay for each unit, whose hold has so many places.
    Relay { hold: HoldLimit },
    /// A line wherever a best price or its shares change; each unit's hold has so many places.
    Quotes { hold: HoldLimit },
}
