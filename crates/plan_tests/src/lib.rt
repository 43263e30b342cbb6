//! Worked examples of the commands that a venue makes itself: that it accepts them, and that their
//! text says them.
//!
//! There are tests alone here, in a crate of their own for the reason that `wire_tests` gives.
#![tactic(auto)]

#[cfg(test)]
mod plans;
