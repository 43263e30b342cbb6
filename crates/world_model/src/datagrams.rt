//! The datagrams of the lines.

ghost use Rattle.std.specs.Prelude.{◌≡◌, ◌++◌, drop, OnOk};
ghost use Rattle.unit_packets.specs.Packing.{bytes_in};
ghost use Rattle.world_model.specs.State.{State, datagrams_on};

use pitch_fields::OutOfMemory;
use pitch_io::Line;
use pitch_messages::ByteList;
use std::alloc::Global;
use unit_packets::DatagramList;

/// Appends copies of datagrams, each in no more memory than it needs: one that was just packed has
/// room for 1,400 bytes. After OutOfMemory some may have been appended.
pub(crate) fn append_copies(
    alloc: Global,
    datagrams: &[ByteList],
    out: &mut DatagramList,
) -> Result<(), OutOfMemory>
    ensures { OnOk result (bytes_in out.new.items
        ≡ bytes_in out.old.items ++ bytes_in datagrams.now) }
{
    'lines: for datagram in datagrams {
        out.push(ByteList::of_bytes(alloc, datagram.bytes())?)?;
    }
    Ok(())
}

/// The datagrams of a line.
pub(crate) fn datagrams_on<'a>(
    sent: &'a DatagramList,
    replayed: &'a DatagramList,
    line: Line,
) -> &'a [ByteList]
    ensures { (s : State) → bytes_in sent.now.items ≡ s.sent
        → bytes_in replayed.now.items ≡ s.replayed → bytes_in result.now ≡ datagrams_on s line }
{
    match line {
        Line::A => sent.as_slice(),
        Line::B => sent.as_slice(),
        Line::Gap => replayed.as_slice(),
    }
}

/// The datagrams after the first so many.
pub(crate) fn datagrams_after(datagrams: &[ByteList], passed: usize) -> &[ByteList]
    ensures { result.now ≡ drop passed datagrams.now }
{
    if passed > datagrams.len() {
        return &datagrams[datagrams.len()..];
    }
    &datagrams[passed..]
}
