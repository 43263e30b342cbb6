//! The best prices of a unit's book, and what of them each message changes.
//!
//! A `Ladder` keeps a book with its levels in order. `apply` does what a message says and appends
//! the best of each symbol and side where it became another; `best` answers one at any time. A
//! `QuotedUnit` has such levels beside the client of a unit, and `QuotedUnits` one for each unit of
//! a stream; `put_quote_line` writes the line of one that they tell.
//!
//! `Levels` are for whoever keeps levels beside a book of its own: `put_order` lays the orders that
//! are open, `turn_each` goes along with the messages that are applied, and `best_level`,
//! `level_at` and `prices_in` answer.
#![tactic(auto)]

mod bests;
mod clearing;
mod hearing;
mod ladder;
pub mod laws;
mod levels;
mod lines;
mod prices;
mod quote;
mod step;
mod steps;
mod text;
mod unit;
mod units;

pub use crate::bests::QuoteList;
pub use crate::ladder::Ladder;
pub use crate::levels::{Depth, Levels, best_level, level_at, prices_in};
pub use crate::lines::{QuoteLines, turn_each};
pub use crate::prices::Prices;
pub use crate::quote::{Quote, QuoteLine};
pub use crate::steps::put_order;
pub use crate::text::put_quote_line;
pub use crate::unit::QuotedUnit;
pub use crate::units::QuotedUnits;
