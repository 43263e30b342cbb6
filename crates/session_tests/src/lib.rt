//! Worked examples of sessions: gap stores, and what the ends say to logins, requests and hostile
//! bytes.
//!
//! There are tests alone here, in a crate of their own for the reason that `wire_tests` gives.
#![tactic(auto)]

#[cfg(test)]
mod beside;
#[cfg(test)]
mod ends;
#[cfg(test)]
mod links;
#[cfg(test)]
mod paths;
#[cfg(test)]
mod proxies;
#[cfg(test)]
mod silences;
#[cfg(test)]
mod spins;
#[cfg(test)]
mod stores;
#[cfg(test)]
mod two_units;
#[cfg(test)]
mod venue_ends;
