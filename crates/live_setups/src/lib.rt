//! What the words of `pitch_live` set up: with what a run of `listen` or of `serve` is made, with
//! which status the program ends, and which words a setup file has.
//!
//! `live_words` says what the words ask for, and `live_listen`, `live_recovery` and `live_venue`
//! what a run does that is made so. Here, in between, nothing is opened and nothing is said.
#![tactic(auto)]

mod account;
mod ended;
mod given;
mod hearing;
mod laws;
mod serving;
mod status;

pub use crate::ended::{
    line_status, listen_status, part_status, recover_status, report_status, serve_status,
};
pub use crate::given::add_setup;
pub use crate::hearing::{Hearing, ListenRun, listen_run};
pub use crate::laws::{
    named_units_are_heard_once, units_have_their_places, what_is_asked_can_be_made,
};
pub use crate::serving::{ServeRun, serve_run};
pub use crate::status::ExitStatus;
