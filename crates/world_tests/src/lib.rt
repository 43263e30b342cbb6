//! Worked examples of schedules and storms, and of the lines and worlds under them.
//!
//! There are tests alone here, in a crate of their own for the reason that `wire_tests` gives.
#![tactic(auto)]

#[cfg(test)]
mod arbiters;
#[cfg(test)]
mod schedules;
#[cfg(test)]
mod storms;
#[cfg(test)]
mod summaries;
#[cfg(test)]
mod worlds;
