//! What came by a call, in a slice as the call left it.

ghost use Rattle.std.specs.Prelude.{◌≡◌};
ghost use Rattle.live_net.specs.LineCalls.{ReceivedWithin, datagram_in};
ghost use Rattle.live_net.specs.LiveCalls.{PeerTakenWithin, taken_in};
ghost use Rattle.venue_net.specs.VenueCalls.{ReadWithin, read_in};

use live_net::{PeerTaken, Received};
use venue_net::InputRead;

// The datagram that came.
pub(crate) fn datagram<'a>(answer: Received, into: &'a [u8]) -> &'a [u8]
    requires { ReceivedWithin answer into.now }
    ensures { result.now ≡ datagram_in answer into.now }
{
    match answer {
        Received::Got(count) => &into[..count],
        _ => &[],
    }
}

// The bytes that were taken.
pub(crate) fn taken<'a>(answer: PeerTaken, into: &'a [u8]) -> &'a [u8]
    requires { PeerTakenWithin answer into.now }
    ensures { result.now ≡ taken_in answer into.now }
{
    match answer {
        PeerTaken::Got(count) => &into[..count],
        _ => &[],
    }
}

// The bytes of the input that came.
pub(crate) fn read<'a>(answer: InputRead, into: &'a [u8]) -> &'a [u8]
    requires { ReadWithin answer into.now }
    ensures { result.now ≡ read_in answer into.now }
{
    match answer {
        InputRead::Got(count) => &into[..count],
        _ => &[],
    }
}
