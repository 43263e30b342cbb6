//! Worked examples of the run of a live venue: what it sends on which line, what it puts to the
//! clients of a proxy and of a Spin Server, whom it sends away, what ends it, and what is reported.
//!
//! There are tests alone here, in a crate of their own for the reason that `wire_tests` gives.
#![tactic(auto)]

#[cfg(test)]
mod clients;
#[cfg(test)]
mod ending;
#[cfg(test)]
mod harmed;
#[cfg(test)]
mod kept_net;
#[cfg(test)]
mod lines;
#[cfg(test)]
mod reports;
#[cfg(test)]
mod runs;
#[cfg(test)]
mod watched;
