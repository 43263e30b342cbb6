//! The first line of a storm's summary, written into a lent buffer at an index.

ghost use Rattle.std.specs.Prelude.{◌≡◌, ◌≤◌, ◌+◌, ◌++◌, take, length};
ghost use Rattle.feed_lines.specs.LineSize.{line_size};
ghost use Rattle.storm_replay.specs.StormText.{storm_line};

use crate::schedule::Storm;
use feed_lines::put_number_field;
use pitch_fields::put_byte;

/// Writes the first line of a storm's summary: what the storm was made of.
pub fn put_storm_line(out: &mut [u8], at: usize, storm: Storm) -> usize
    requires { at + line_size ≤ length out.old }
    ensures end { result ≤ at + line_size }
    ensures text { take result out.new
        ≡ take at out.old ++ storm_line storm.number storm.units storm.steps }
    ensures kept { length out.new ≡ length out.old }
{
    let numbered = put_number_field(out, at, b"storm number ", storm.number);
    let counted = put_number_field(out, numbered, b" units ", u64::from(storm.units));
    let stepped = put_number_field(out, counted, b" steps ", u64::from(storm.steps));
    put_byte(out, stepped, b'\n')
}
