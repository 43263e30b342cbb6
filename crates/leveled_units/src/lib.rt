//! The clients of a feed with the price levels of their books beside them, for best prices at any
//! time.
//!
//! A `LeveledUnit` hears blocks as a client alone does, and stands for just what its client stands
//! for; `hear_quoted` also tells what each message changed of the best prices. Levels are kept
//! where they were asked for and there is memory for them; without them the answers are the same.
//! `LeveledUnits` has one for each unit of a stream, made at the unit's first block.
#![tactic(auto)]

mod best_first;
mod laying;
mod unit;
mod units;

pub use crate::best_first::LevelList;
pub use crate::laying::lay_best_first;
pub use crate::unit::{Heard, LeveledUnit};
pub use crate::units::LeveledUnits;
