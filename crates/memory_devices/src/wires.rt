//! What is on its way in a net in memory: datagrams by line, and bytes by end.

ghost use Rattle.std.specs.Prelude.{◌≡◌, ◌<◌, ◌++◌, [], length, take, drop, min, true};
ghost use Rattle.memory_devices.specs.layers.MemoryNets.{AreFull, ComesFirst, as_carried};
ghost use Rattle.memory_devices.specs.layers.MemoryNets.{datagram_items, end_changed, line_changed};
ghost use Rattle.memory_devices.specs.layers.MemoryNets.{nothing_coming, on_line, to_end};
ghost use Rattle.pitch_io.specs.Nets.{other_end};

use pitch_io::{Line, LinkEnd};
use std::alloc::Global;
use std::collections::VecDeque;
use std::marker::Model;

// The datagrams that are on their way on each line, and the bytes to each end.
#[derive(Drop)]
pub struct Wires {
    alloc: Global,
    a: VecDeque<Vec<u8>>,
    b: VecDeque<Vec<u8>>,
    gap: VecDeque<Vec<u8>>,
    grp_client: Vec<u8>,
    grp_server: Vec<u8>,
    spin_client: Vec<u8>,
    spin_server: Vec<u8>,
}

impl Model for Wires {
    ghost use Rattle.memory_devices.specs.layers.MemoryNets.{AreFull, OnItsWay, datagram_items};

    ghost Value = { OnItsWay };

    ghost view = { λ w. record {
      a = datagram_items w.a.items;
      b = datagram_items w.b.items;
      gap = datagram_items w.gap.items;
      grp_client = w.grp_client.items;
      grp_server = w.grp_server.items;
      spin_client = w.spin_client.items;
      spin_server = w.spin_server.items;
    } };

    ghost invariant = { λ w. AreFull (datagram_items w.a.items)
        × AreFull (datagram_items w.b.items) × AreFull (datagram_items w.gap.items) };
}

impl Wires {
    pub(crate) fn make(alloc: Global) -> Wires
        ensures { result ≡ nothing_coming }
    {
        Wires {
            alloc,
            a: VecDeque::new(alloc),
            b: VecDeque::new(alloc),
            gap: VecDeque::new(alloc),
            grp_client: Vec::new(alloc),
            grp_server: Vec::new(alloc),
            spin_client: Vec::new(alloc),
            spin_server: Vec::new(alloc),
        }
    }

    // Nothing is on its way any more.
    pub(crate) fn clear(&mut self)
        ensures { self.new ≡ nothing_coming }
    {
        self.a.clear();
        self.b.clear();
        self.gap.clear();
        self.grp_client.clear();
        self.grp_server.clear();
        self.spin_client.clear();
        self.spin_server.clear();
    }

    // A datagram goes on a line. Answers whether there was memory for it.
    pub(crate) fn send(&mut self, line: Line, datagram: &[u8]) -> bool
        ensures { result ≡ true → self.new
            ≡ line_changed self.old line (λ datagrams. datagrams ++ as_carried datagram.now) }
    {
        match line {
            Line::A => append(&mut self.a, self.alloc, datagram),
            Line::B => append(&mut self.b, self.alloc, datagram),
            Line::Gap => append(&mut self.gap, self.alloc, datagram),
        }
    }

    // The next datagram of a line, to the start of the slice. Answers how many bytes, and 0 where
    // nothing is on its way.
    pub(crate) fn next(&mut self, line: Line, into: &mut [u8]) -> usize
        ensures way { self.new ≡ line_changed self.old line (drop 1) }
        ensures came { ComesFirst (on_line self.old line) result into.new }
        ensures none { result ≡ 0 → 0 < length into.old → on_line self.old line ≡ [] }
        ensures size { length into.new ≡ length into.old }
    {
        match line {
            Line::A => take_first(&mut self.a, into),
            Line::B => take_first(&mut self.b, into),
            Line::Gap => take_first(&mut self.gap, into),
        }
    }

    // A piece goes to the other end. Answers whether there was memory for it.
    pub(crate) fn put(&mut self, end: LinkEnd, piece: &[u8]) -> bool
        ensures { result ≡ true → self.new
            ≡ end_changed self.old (other_end end) (λ bytes. bytes ++ piece.now) }
    {
        match end {
            LinkEnd::GrpClient => self.grp_server.extend_from_slice(piece).is_ok(),
            LinkEnd::GrpServer => self.grp_client.extend_from_slice(piece).is_ok(),
            LinkEnd::SpinClient => self.spin_server.extend_from_slice(piece).is_ok(),
            LinkEnd::SpinServer => self.spin_client.extend_from_slice(piece).is_ok(),
        }
    }

    // The next bytes to an end, to the start of the slice. Answers how many.
    pub(crate) fn take(&mut self, end: LinkEnd, into: &mut [u8]) -> usize
        ensures count { result ≡ min (length (to_end self.old end)) (length into.old) }
        ensures way { self.new ≡ end_changed self.old end (drop result) }
        ensures came { take result into.new ≡ take result (to_end self.old end) }
        ensures size { length into.new ≡ length into.old }
    {
        match end {
            LinkEnd::GrpClient => take_bytes(&mut self.grp_client, into),
            LinkEnd::GrpServer => take_bytes(&mut self.grp_server, into),
            LinkEnd::SpinClient => take_bytes(&mut self.spin_client, into),
            LinkEnd::SpinServer => take_bytes(&mut self.spin_server, into),
        }
    }
}

// One more datagram at the end; one without bytes is not carried.
fn append(datagrams: &mut VecDeque<Vec<u8>>, alloc: Global, datagram: &[u8]) -> bool
    requires { AreFull (datagram_items datagrams.old.items) }
    ensures added { result ≡ true → datagram_items datagrams.new.items
        ≡ datagram_items datagrams.old.items ++ as_carried datagram.now }
    ensures full { AreFull (datagram_items datagrams.new.items) }
{
    if datagram.is_empty() {
        return true;
    }
    match Vec::from_slice(alloc, datagram) {
        Ok(copy) => datagrams.push_back(copy).is_ok(),
        Err(_) => false,
    }
}

// Takes the first datagram out and copies as much of it as there is room for.
fn take_first(datagrams: &mut VecDeque<Vec<u8>>, into: &mut [u8]) -> usize
    requires { AreFull (datagram_items datagrams.old.items) }
    ensures way { datagram_items datagrams.new.items ≡ drop 1 (datagram_items datagrams.old.items) }
    ensures came { ComesFirst (datagram_items datagrams.old.items) result into.new }
    ensures none { result ≡ 0 → 0 < length into.old → datagram_items datagrams.old.items ≡ [] }
    ensures full { AreFull (datagram_items datagrams.new.items) }
    ensures size { length into.new ≡ length into.old }
{
    match datagrams.pop_front() {
        Some(datagram) => {
            let count = datagram.len().min(into.len());
            into[..count].copy_from_slice(&datagram[..count]);
            count
        }
        None => 0,
    }
}

// Takes the first bytes out, as many as there is room for.
fn take_bytes(bytes: &mut Vec<u8>, into: &mut [u8]) -> usize
    ensures count { result ≡ min (length bytes.old.items) (length into.old) }
    ensures rest { bytes.new.items ≡ drop result bytes.old.items }
    ensures came { take result into.new ≡ take result bytes.old.items }
    ensures size { length into.new ≡ length into.old }
{
    let count = bytes.len().min(into.len());
    into[..count].copy_from_slice(&bytes[..count]);
    bytes.rotate_left(count);
    bytes.truncate(bytes.len() - count);
    count
}
