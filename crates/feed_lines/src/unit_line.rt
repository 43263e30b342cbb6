//! The line of a unit: where it ended.

ghost use Rattle.std.specs.Prelude.{◌≡◌, ◌≤◌, ◌+◌, ◌++◌, [], ◌∷◌, take, drop, length, OnOk};
ghost use Rattle.std.specs.Prelude.{OnErr};
ghost use Rattle.feed_lines.specs.LineSize.{line_size};
ghost use Rattle.feed_lines.specs.UnitLine.{unit_line};

use crate::lines::{LINE, put_number_field, put_status};
use pitch_fields::{OutOfMemory, put_byte, put_text};
use pitch_model::Status;

/// Writes the line of a unit: its status, and the number of orders and the shares of its book.
#[tactic(auto, unfolding(crate::specs::UnitLine::unit_line))]
pub fn put_unit_line(
    out: &mut [u8],
    at: usize,
    unit: u8,
    status: Status,
    orders: u32,
    shares: u64,
) -> usize
    requires { at + line_size ≤ length out.old }
    ensures end { result ≤ at + line_size }
    ensures text { take result out.new ≡ take at out.old ++ unit_line unit status orders shares }
    ensures rest { drop result out.new ≡ drop result out.old }
    ensures kept { length out.new ≡ length out.old }
{
    let named = put_number_field(out, at, b"unit ", u64::from(unit));
    let spaced = put_text(out, named, b" ");
    let placed = put_status(out, spaced, status);
    let counted = put_number_field(out, placed, b" orders ", u64::from(orders));
    let summed = put_number_field(out, counted, b" shares ", shares);
    put_byte(out, summed, b'\n')
}

/// Appends the line of a unit. `out` is as before after OutOfMemory.
pub fn append_unit_line(
    unit: u8,
    status: Status,
    orders: u32,
    shares: u64,
    out: &mut Vec<u8>,
) -> Result<(), OutOfMemory>
    ensures ok { OnOk result (out.new.items
        ≡ out.old.items ++ unit_line unit status orders shares) }
    ensures err { OnErr result (out.new.items ≡ out.old.items) }
{
    let mut line = [0u8; LINE];
    let end = put_unit_line(&mut line, 0, unit, status, orders, shares);
    out.extend_from_slice(&line[..end])?;
    Ok(())
}
