//! What is sent on lines and put at ends.

ghost use Rattle.std.specs.Prelude.{◌≡◌, List, [], ◌∷◌, OnOk, IfErr, if◌then◌else◌};
ghost use Rattle.pitch_io.specs.Nets.{Call};
ghost use Rattle.unit_packets.specs.Packing.{bytes_in};
ghost use Rattle.net_edge.specs.Acting.{sent_on, end_puts};
ghost use Rattle.net_edge.specs.Breaking.{Breaks};
ghost use Rattle.net_edge.specs.Due.{Setting, IsDuePiece, AreDuePieces};
ghost use Rattle.net_edge.specs.layers.Playing.{NetCounts, Plays};
ghost use Rattle.net_edge.specs.Scene.{Scene, waits_at};

use crate::error::DemoError;
use pitch_io::{Line, LinkEnd, Net, NetDone, Put};
use pitch_messages::ByteList;

/// Sends a datagram on a line.
pub(crate) fn send<N: Net>(net: &mut N, line: Line, datagram: &[u8]) -> Result<(), DemoError>
    ensures sent { OnOk result ((s : Setting) (base : List Call) (now : Scene)
        → Plays s base (N.calls net.old) now → IsDuePiece s now.turn datagram.now
        → Plays s base (N.calls net.new) (sent_on line (datagram.now ∷ []) now)) }
    ensures broke { IfErr result (λ error. (s : Setting) (base : List Call) (now : Scene)
        → Plays s base (N.calls net.old) now → IsDuePiece s now.turn datagram.now
        → Breaks s base (N.calls net.new) error) }
    ensures faults { NetCounts result (N.faults net.old) (N.faults net.new) }
{
    match net.send(line, datagram) {
        NetDone::Done => Ok(()),
        NetDone::Failed => Err(DemoError::NetFault),
    }
}

/// Sends datagrams on a line, one after another.
pub(crate) fn send_all<N: Net>(
    net: &mut N,
    line: Line,
    datagrams: &[ByteList],
) -> Result<(), DemoError>
    ensures sent { OnOk result ((s : Setting) (base : List Call) (now : Scene)
        → Plays s base (N.calls net.old) now → AreDuePieces s now.turn (bytes_in datagrams.now)
        → Plays s base (N.calls net.new) (sent_on line (bytes_in datagrams.now) now)) }
    ensures broke { IfErr result (λ error. (s : Setting) (base : List Call) (now : Scene)
        → Plays s base (N.calls net.old) now → AreDuePieces s now.turn (bytes_in datagrams.now)
        → Breaks s base (N.calls net.new) error) }
    ensures faults { NetCounts result (N.faults net.old) (N.faults net.new) }
{
    'sends: for datagram in datagrams {
        send(net, line, datagram.bytes())?;
    }
    Ok(())
}

/// Sends datagrams on a line, unless these copies are lost.
pub(crate) fn send_unless<N: Net>(
    net: &mut N,
    lost: bool,
    line: Line,
    datagrams: &[ByteList],
) -> Result<(), DemoError>
    ensures sent { OnOk result ((s : Setting) (base : List Call) (now : Scene)
        → Plays s base (N.calls net.old) now → AreDuePieces s now.turn (bytes_in datagrams.now)
        → Plays s base (N.calls net.new)
        (sent_on line (if lost then [] else bytes_in datagrams.now) now)) }
    ensures broke { IfErr result (λ error. (s : Setting) (base : List Call) (now : Scene)
        → Plays s base (N.calls net.old) now → AreDuePieces s now.turn (bytes_in datagrams.now)
        → Breaks s base (N.calls net.new) error) }
    ensures faults { NetCounts result (N.faults net.old) (N.faults net.new) }
{
    if lost {
        return Ok(());
    }
    send_all(net, line, datagrams)?;
    Ok(())
}

/// Puts all of the bytes that wait at an end.
pub(crate) fn put_whole<N: Net>(net: &mut N, at: LinkEnd, bytes: &[u8]) -> Result<(), DemoError>
    ensures put { OnOk result ((s : Setting) (base : List Call) (now : Scene)
        → bytes.now ≡ waits_at at now.world → Plays s base (N.calls net.old) now
        → Plays s base (N.calls net.new) (end_puts at bytes.now now)) }
    ensures broke { IfErr result (λ error. (s : Setting) (base : List Call) (now : Scene)
        → bytes.now ≡ waits_at at now.world → Plays s base (N.calls net.old) now
        → Breaks s base (N.calls net.new) error) }
    ensures faults { NetCounts result (N.faults net.old) (N.faults net.new) }
{
    let mut done = 0;
    'puts: while done < bytes.len() {
        match net.put(at, &bytes[done..]) {
            Put::Wrote(count) => done += count,
            Put::Failed => return Err(DemoError::NetFault),
        }
    }
    Ok(())
}
