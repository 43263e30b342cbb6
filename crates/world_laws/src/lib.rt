//! Laws of a unit's world: what holds in every state that verbs lead to, in any order, and that a
//! recovery ends.
//!
//! The functions do nothing. What they ensure is proved of the definitions of `world_model` alone.
#![tactic(auto)]

mod laws;

pub use crate::laws::{
    every_state_is_sound, recovery_ends, requests_stay_within_their_limits,
    rounds_with_the_proxy_end,
};
