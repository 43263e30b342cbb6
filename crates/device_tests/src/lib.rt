//! Worked examples of devices: sources and sinks, gates, a net in memory, and patient streams.
//!
//! There are tests alone here, in a crate of their own for the reason that `wire_tests` gives.
#![tactic(auto)]

#[cfg(test)]
mod gates;
#[cfg(test)]
mod nets;
#[cfg(test)]
mod patient;
#[cfg(test)]
mod streams;
