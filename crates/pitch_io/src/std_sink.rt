//! A sink over any writer of std, such as standard output.

ghost use Rattle.std.specs.Prelude.{◌≡◌, None};

use crate::sink::{Put, Sink};
use std::io::Write;

/// A sink over a writer of std. It does not tell what was written. A write of nothing is a fault.
#[derive(Drop)]
pub struct StdSink<W> {
    writer: W,
    faults: u64,
}

impl<W: Write> StdSink<W> {
    /// A sink over this writer. Takes no memory.
    pub fn make(writer: W) -> StdSink<W>
        ensures { ⟦<StdSink<W> as Sink>⟧.faults result ≡ 0 }
    {
        StdSink { writer, faults: 0 }
    }
}

impl<W: Write> Sink for StdSink<W> {
    ghost written = { λ _. None };

    ghost faults = { λ s. s.faults };

    fn put(&mut self, piece: &[u8]) -> Put {
        match self.writer.write(piece) {
            Ok(0) | Err(_) => {
                self.faults = self.faults.saturating_add(1);
                Put::Failed
            }
            Ok(count) => Put::Wrote(count),
        }
    }
}
