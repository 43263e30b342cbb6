//! Checks a printed report against a log: whether each printed book is what the logged messages
//! leave.
#![tactic(auto)]

mod audit;
mod backward;
mod error;
mod input;
pub mod laws;
mod lines;
mod naming;
mod printing;
mod report;
mod verdict;
mod walk;

pub use crate::audit::Audit;
pub use crate::error::AuditError;
pub use crate::input::{AuditFault, FoundGap, InputError, audit_input};
pub use crate::verdict::Verdict;
