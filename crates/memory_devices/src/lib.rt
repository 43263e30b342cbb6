//! Devices for tests: sources, sinks and a net that stay in memory, and a gate at which work waits.
//!
//! Some fail at the calls that their maker lists, and some never fail. A net here lists its calls,
//! and carries in order what is sent and put.
#![tactic(auto)]

mod call_log;
mod meet_gate;
mod memory_net;
mod memory_sink;
mod memory_source;
mod steady_sink;
mod steady_source;
mod wires;

pub use crate::meet_gate::MeetGate;
pub use crate::memory_net::{MemoryNet, NetCall, NetVerb, VerbCounts};
pub use crate::memory_sink::MemorySink;
pub use crate::memory_source::MemorySource;
pub use crate::steady_sink::SteadySink;
pub use crate::steady_source::SteadySource;
