//! The program as one call, run over memory: what it writes and says of words, streams and texts,
//! good and faulty, in pieces of several sizes.
//!
//! There are tests alone here, in a crate of their own for the reason that `wire_tests` gives.
#![tactic(auto)]

#[cfg(test)]
mod audits;
#[cfg(test)]
mod captures;
#[cfg(test)]
mod demos;
#[cfg(test)]
mod devices;
#[cfg(test)]
mod drills;
#[cfg(test)]
mod live;
#[cfg(test)]
mod nets;
#[cfg(test)]
mod packs;
#[cfg(test)]
mod quotes;
#[cfg(test)]
mod relays;
#[cfg(test)]
mod runs;
#[cfg(test)]
mod schedules;
#[cfg(test)]
mod sessions;
#[cfg(test)]
mod storms;
#[cfg(test)]
mod streams;
#[cfg(test)]
mod words;
