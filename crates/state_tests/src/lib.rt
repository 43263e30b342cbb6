//! Worked examples of what is kept for a unit: books, ladders, holds, clients, relays and venues,
//! and of audits of what was printed of it.
//!
//! There are tests alone here, in a crate of their own for the reason that `wire_tests` gives.
#![tactic(auto)]

#[cfg(test)]
mod audits;
#[cfg(test)]
mod books;
#[cfg(test)]
mod clients;
#[cfg(test)]
mod holds;
#[cfg(test)]
mod own_notes;
#[cfg(test)]
mod quotes;
#[cfg(test)]
mod relays;
#[cfg(test)]
mod venues;
