//! What the four ends of sessions share: what a stream of bytes says to an end, which cause closes
//! it at which place, and when it sends a heartbeat. Each clause speaks of all that happened to the
//! end, bytes in whatever pieces among it, so that other pieces of the same bytes change nothing.
//!
//! A server or a link keeps an [`End`], and hears a piece with [`End::hear`]: each thing that its
//! bytes say goes to a desk of its own, whose [`Answers`] is the one step in which they differ.
//! With [`End::note_sent`] it notes what it sent unasked. A second that passes is [`End::tick`].
#![tactic(auto)]

mod account;
mod answers;
mod closed;
mod driving;
mod end;
mod inbox;
mod lent;
mod role;
mod sayings;

pub use crate::account::Account;
pub use crate::answers::Answers;
pub use crate::closed::{CloseCause, Closed};
pub use crate::end::End;
pub use crate::inbox::Heard;
pub use crate::lent::LentRaw;
pub use crate::role::{Role, Said};
pub use crate::sayings::Sayings;
