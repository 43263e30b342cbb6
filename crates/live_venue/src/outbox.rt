//! What is still to be sent.

ghost use Rattle.std.specs.Prelude.{◌≡◌, ◌++◌, [], ◌∷◌, OnOk};
ghost use Rattle.unit_packets.specs.Packing.{bytes_in};
ghost use Rattle.live_venue.specs.Standing.{Sends, all_outgoing, each_on, on_road, outgoing};

use pitch_fields::OutOfMemory;
use pitch_messages::ByteList;
use std::alloc::Global;
use unit_packets::DatagramList;
use venue_net::VenueNet;

/// The lines on which a datagram goes out.
#[derive(Clone, Copy)]
pub(crate) enum Road {
    /// Lines A and B.
    Both(u16, u16),
    /// The gap line.
    Gap(u16),
}

impl Road {
    // Sends a datagram on each of its lines.
    fn send<N: VenueNet>(self, datagram: &[u8], net: &mut N)
        ensures sends { Sends (N.calls net.old) (N.calls net.new) (on_road self datagram.now) }
        ensures still { N.faults net.new ≡ N.faults net.old }
    {
        match self {
            Road::Both(a, b) => {
                net.send(a, datagram);
                net.send(b, datagram);
            }
            Road::Gap(line) => net.send(line, datagram),
        }
    }

    // Sends each of some datagrams, one after another.
    fn send_each<N: VenueNet>(self, datagrams: &[ByteList], net: &mut N)
        ensures sends { Sends (N.calls net.old) (N.calls net.new)
            (each_on self (bytes_in datagrams.now)) }
        ensures still { N.faults net.new ≡ N.faults net.old }
    {
        'datagrams: for datagram in datagrams {
            self.send(datagram.bytes(), net);
        }
    }
}

/// Datagrams that go out on the same lines.
#[derive(Drop)]
pub(crate) struct Batch {
    pub(crate) road: Road,
    pub(crate) datagrams: DatagramList,
}

/// Datagrams that are still to be sent, the first of them first.
#[derive(Drop)]
pub(crate) struct Outbox {
    batches: Vec<Batch>,
}

// Sends the datagrams of each batch.
fn send_batches<N: VenueNet>(batches: &[Batch], net: &mut N)
    ensures sends { Sends (N.calls net.old) (N.calls net.new) (all_outgoing batches.now) }
    ensures still { N.faults net.new ≡ N.faults net.old }
{
    'batches: for batch in batches {
        batch.road.send_each(batch.datagrams.as_slice(), net);
    }
}

impl Outbox {
    /// Nothing is to be sent yet.
    pub(crate) fn make(alloc: Global) -> Outbox
        ensures { result.batches.items ≡ [] }
    {
        Outbox {
            batches: Vec::new(alloc),
        }
    }

    /// These datagrams are to be sent too.
    pub(crate) fn add(&mut self, road: Road, datagrams: DatagramList) -> Result<(), OutOfMemory>
        ensures { OnOk result (all_outgoing self.new.batches.items
            ≡ all_outgoing self.old.batches.items ++ each_on road (bytes_in datagrams.items)) }
    {
        self.batches.push(Batch { road, datagrams })?;
        Ok(())
    }

    /// Sends all, one after another.
    pub(crate) fn send<N: VenueNet>(&mut self, net: &mut N)
        ensures sends { Sends (N.calls net.old) (N.calls net.new)
            (all_outgoing self.old.batches.items) }
        ensures none { self.new.batches.items ≡ [] }
        ensures still { N.faults net.new ≡ N.faults net.old }
    {
        send_batches(&self.batches, net);
        self.batches.clear();
    }
}
