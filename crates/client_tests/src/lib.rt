//! Worked examples of the clients of a unit: a lost packet and an image through an end with its
//! sessions, units with the levels of their books, and copies that differ.
//!
//! There are tests alone here, in a crate of their own for the reason that `wire_tests` gives.
#![tactic(auto)]

#[cfg(test)]
mod copies;
#[cfg(test)]
mod ends;
#[cfg(test)]
mod images;
#[cfg(test)]
mod levels;
#[cfg(test)]
mod recoveries;
