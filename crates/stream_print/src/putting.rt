//! Writes all of some bytes to a sink, in as many puts as it takes.

ghost use Rattle.std.specs.Prelude.{OnOk, OnErr, IsErr};
ghost use Rattle.stream_print.specs.Sinks.{PutsPrefix, CountsFault};
ghost use Rattle.pitch_io.specs.Putting.{Grows};

use pitch_io::{Put, Sink};

/// A sink failed.
#[derive(Clone, Copy, PartialEq, Eq)]
pub struct PutFailed;

/// Writes all the bytes. After a failure the sink has a prefix of them.
pub fn put_all<O: Sink>(out: &mut O, bytes: &[u8]) -> Result<(), PutFailed>
    ensures ok { OnOk result (Grows (O.written out.old) (O.written out.new) bytes.now) }
    ensures err { OnErr result (PutsPrefix O.written out.old out.new bytes.now) }
    ensures cause { CountsFault O.faults out.old out.new (IsErr result) }
{
    let mut at = 0;
    'puts: while at < bytes.len() {
        match out.put(&bytes[at..]) {
            Put::Wrote(count) => at += count,
            Put::Failed => return Err(PutFailed),
        }
    }
    Ok(())
}
