//! The clients of all units of a stream: each block is handed to the client of its unit, which is
//! made at the unit's first block.
//!
//! A unit has a client exactly where a block names it, and that client stands for the unit's blocks
//! alone. Make `Units`, hand over each block of the stream in turn by `hear_block`, and find in
//! `clients` the client of each unit at its number. They stand in a `UnitTable`, and so does what
//! other crates keep for each unit.
#![tactic(auto)]

mod table;
mod units;

pub use crate::table::UnitTable;
pub use crate::units::Units;
