//! What the words ask for.

use crate::listen_words::ListenWords;
use crate::serve_words::ServeWords;

/// A command with what it is asked for.
#[derive(Drop)]
pub enum Asked {
    /// `listen`: the lines of a feed are heard.
    Listen(ListenWords),
    /// `serve`: units are published, and their clients answered.
    Serve(ServeWords),
}
