//! Servers of a shared unit, asked in the thread of their writer and beside it.
//!
//! There are tests alone here, in a crate of their own for the reason that `wire_tests` gives.
#![tactic(auto)]

#[cfg(test)]
mod servers;
#[cfg(test)]
mod threads;
