//! Worked examples of a drill: its clients, what crosses to them, and its units.
//!
//! There are tests alone here, in a crate of their own for the reason that `wire_tests` gives.
#![tactic(auto)]

#[cfg(test)]
mod clients;
#[cfg(test)]
mod units;
#[cfg(test)]
mod values;
