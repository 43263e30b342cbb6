//! Finds the UDP payload in an Ethernet frame over IPv4, with a tag or without.

ghost use Rattle.std.specs.Prelude.{◌≡◌, ◌+◌, ◌≤◌, ◌<◌, ◌^◌, ℕ, length, IfSome};
ghost use Rattle.pcap_feed.specs.Payload.{big_at, is_other, in_udp, in_ip, in_frame, type_place};
ghost use Rattle.pcap_feed.specs.Payload.{payload};
ghost use Rattle.pcap_feed.specs.layers.Lent.{packet_of};

use crate::record::Record;
use byteorder::{BigEndian, ByteOrder};

// The big-endian number of the 2 bytes from a place.
#[inline]
fn get_big(bytes: &[u8], at: usize) -> u16
    requires { at + 2 ≤ length bytes.now }
    ensures { result ≡ big_at 2 at bytes.now }
{
    BigEndian::read_u16(&bytes[at..])
}

fn is_other(port: Option<u16>, found: u16) -> bool
    ensures { result ≡ is_other port found }
{
    match port {
        None => false,
        Some(wanted) => found != wanted,
    }
}

// The place and the length of what a UDP datagram, which stands at a place, carries.
#[tactic(auto, unfolding(crate::specs::Payload::in_udp))]
fn in_udp(port: Option<u16>, at: usize, udp: &[u8]) -> Option<(usize, usize)>
    requires { at + length udp.now < 2 ^ 63 }
    ensures exact { result ≡ in_udp port at udp.now }
    ensures within { IfSome result (λ found. found.0 + found.1 ≤ at + length udp.now) }
{
    if udp.len() < 8 {
        return None;
    }
    let size = get_big(udp, 4) as usize;
    if size < 8 {
        return None;
    }
    if udp.len() < size {
        return None;
    }
    if is_other(port, get_big(udp, 2)) {
        return None;
    }
    Some((at + 8, size - 8))
}

// Likewise for what follows the frame's type.
#[tactic(auto, unfolding(crate::specs::Payload::in_ip))]
fn in_ip(port: Option<u16>, at: usize, ip: &[u8]) -> Option<(usize, usize)>
    requires { at + length ip.now < 2 ^ 63 }
    ensures exact { result ≡ in_ip port at ip.now }
    ensures within { IfSome result (λ found. found.0 + found.1 ≤ at + length ip.now) }
{
    if ip.len() < 20 {
        return None;
    }
    if ip[0] / 16 != 4 {
        return None;
    }
    let header = 4 * (ip[0] % 16) as usize;
    if header < 20 {
        return None;
    }
    let total = get_big(ip, 2) as usize;
    if total < header {
        return None;
    }
    if ip.len() < total {
        return None;
    }
    if get_big(ip, 6) % 0x4000 != 0 {
        return None;
    }
    if ip[9] != 17 {
        return None;
    }
    in_udp(port, at + header, &ip[header..total])
}

// The place of the frame's type: behind the tag, where there is one.
fn type_place(frame: &[u8]) -> usize
    requires { 14 ≤ length frame.now }
    ensures { result ≡ type_place frame.now }
{
    if get_big(frame, 12) == 0x8100 { 16 } else { 12 }
}

#[tactic(auto, unfolding(crate::specs::Payload::in_frame))]
fn in_frame(port: Option<u16>, frame: &[u8]) -> Option<(usize, usize)>
    ensures exact { result ≡ in_frame port frame.now }
    ensures within { IfSome result (λ found. found.0 + found.1 ≤ length frame.now) }
{
    if frame.len() < 14 {
        return None;
    }
    let at = type_place(frame);
    if frame.len() < at + 2 {
        return None;
    }
    if get_big(frame, at) != 0x0800 {
        return None;
    }
    in_ip(port, at + 2, &frame[at + 2..])
}

/// The place and the length of the UDP datagram's bytes in a frame, of which so many bytes were
/// there and these were captured; None where it was cut off, or is no whole UDP datagram over IPv4,
/// or another port was wanted.
#[tactic(auto, unfolding(crate::specs::Payload::payload))]
pub fn payload_in(original: u32, frame: &[u8], port: Option<u16>) -> Option<(usize, usize)>
    ensures exact { (seconds fraction : ℕ)
        → result ≡ payload (packet_of seconds fraction original frame.now) port }
    ensures within { IfSome result (λ found. found.0 + found.1 ≤ length frame.now) }
{
    if frame.len() < original as usize {
        return None;
    }
    in_frame(port, frame)
}

/// The place and the length of the UDP datagram's bytes in a record, as `payload_in` finds them. It
/// takes no memory.
pub fn payload_of(packet: &Record, port: Option<u16>) -> Option<(usize, usize)>
    ensures exact { result ≡ payload packet.now port }
    ensures within { IfSome result (λ found. found.0 + found.1 ≤ length packet.now.bytes) }
{
    payload_in(packet.original, packet.bytes.bytes(), port)
}
