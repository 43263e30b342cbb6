//! Copies that differ: every message of a feed comes twice or more, on its lines and on the gap
//! line, so two copies of one sequence with different bytes show that no venue is honest for what
//! was heard.
//!
//! Make `LineCopies`, and hand over each block that is heard on a line by `hear_block`: it answers
//! the first sequence of the block of which another copy is kept. It calls no net.
#![tactic(auto)]

mod kept;
mod laws;
mod lines;
mod sums;
mod unit;

pub use crate::laws::{copies_that_differ_are_of_no_venue, last_sequences_are_kept};
pub use crate::lines::LineCopies;
pub use crate::sums::sum_of;
pub use crate::unit::UnitCopies;
