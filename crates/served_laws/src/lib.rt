//! Laws of a client's end beside a venue's end of the same unit. What a venue's end serves is
//! honest: however its datagrams are lost, repeated or put out of order, and wherever the bytes of
//! its sessions are delayed or cut, the client's history speaks of what the venue accepted alone.
//!
//! The laws do nothing. What they ensure is proved of the definitions of `client_end` and
//! `venue_end` alone; [`book_beside`] shows what follows for the book of a client.
#![tactic(auto)]

mod book;
mod laws;

pub use crate::book::book_beside;
pub use crate::laws::{
    a_client_beside_a_venue_hears_the_truth, what_is_served_is_honest, what_waits_was_said,
};
