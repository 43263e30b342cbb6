//! Worked examples of a listener, what it hears, prints and counts, and what ends it; of the turns
//! of lines and peers, and of those of a venue; of two units of a live client, of which one comes
//! back by an image; of a client that asks; and of one that asks nobody, whose run ends with its
//! units.
//!
//! There are tests alone here, in a crate of their own for the reason that `wire_tests` gives.
#![tactic(auto)]

#[cfg(test)]
mod ending;
#[cfg(test)]
mod listening;
#[cfg(test)]
mod place_turns;
#[cfg(test)]
mod recovering;
#[cfg(test)]
mod units;
#[cfg(test)]
mod whose_turn;
