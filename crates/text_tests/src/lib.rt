//! Worked examples of texts: lines, the commands and verbs of a schedule with their faults, and a
//! text that comes in pieces.
//!
//! There are tests alone here, in a crate of their own for the reason that `wire_tests` gives.
#![tactic(auto)]

#[cfg(test)]
mod lines;
#[cfg(test)]
mod pieces;
#[cfg(test)]
mod schedules;
