//! Laws of whole runs of a live venue: what it sends and puts is honest for every live client that
//! hears it, and what its units accept is what the text of its input commands, however that came.
//!
//! The laws do nothing. What they ensure is proved of the definitions alone: of what `live_venue`
//! says of a run, and of what `live_recovery` says of a client's.
#![tactic(auto)]

mod laws;

pub use crate::laws::{a_client_beside_a_run_has_its_books, units_have_the_text_of_the_input};
