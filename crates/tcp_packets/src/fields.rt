//! Fields of the headers of IPv4 and TCP, and tests of whole headers.

ghost use Rattle.std.specs.Prelude.{◌≡◌, ◌≤◌, length};
ghost use Rattle.tcp_packets.specs.Headers.{header_length as header_length_lem, is_fragment as is_fragment_lem, is_ipv4 as is_ipv4_lem};
ghost use Rattle.tcp_packets.specs.Headers.{data_offset as data_offset_lem, is_tcp as is_tcp_lem, is_segment as is_segment_lem, is_syn as is_syn_lem};

use pcap_form::{ByteOrder, half_at};

/// The number of TCP among the protocols of IPv4.
const TCP: u8 = 6;

/// Returns how many octets the header of an IPv4 packet has.
pub(crate) fn header_length(packet: &[u8]) -> usize
    requires { 20 ≤ length packet.now }
    ensures { result ≡ header_length_lem packet.now }
{
    usize::from(packet[0] % 16) * 4
}

/// Returns whether octets begin with an IPv4 packet, which is there to its end.
pub(crate) fn is_ipv4(packet: &[u8]) -> bool
    ensures { result ≡ is_ipv4_lem packet.now }
{
    if packet.len() < 20 || packet[0] / 16 != 4 {
        return false;
    }
    let header = header_length(packet);
    let total = usize::from(half_at(ByteOrder::Big, packet, 2));
    header >= 20 && header <= total && total <= packet.len()
}

/// Returns whether the data of an IPv4 packet are TCP's.
pub(crate) fn is_tcp(packet: &[u8]) -> bool
    requires { 20 ≤ length packet.now }
    ensures { result ≡ is_tcp_lem packet.now }
{
    packet[9] == TCP
}

/// Returns whether an IPv4 packet is a fragment of a longer one.
pub(crate) fn is_fragment(packet: &[u8]) -> bool
    requires { 20 ≤ length packet.now }
    ensures { result ≡ is_fragment_lem packet.now }
{
    half_at(ByteOrder::Big, packet, 6) % 0x4000 != 0
}

/// Returns how many octets the header of a TCP segment has.
pub(crate) fn data_offset(segment: &[u8]) -> usize
    requires { 20 ≤ length segment.now }
    ensures { result ≡ data_offset_lem segment.now }
{
    usize::from(segment[12] / 16) * 4
}

/// Returns whether octets are a TCP segment: a header that is there to its end.
pub(crate) fn is_segment(segment: &[u8]) -> bool
    ensures { result ≡ is_segment_lem segment.now }
{
    if segment.len() < 20 {
        return false;
    }
    let header = data_offset(segment);
    header >= 20 && header <= segment.len()
}

/// Returns whether a TCP segment opens its connection.
pub(crate) fn is_syn(segment: &[u8]) -> bool
    requires { 20 ≤ length segment.now }
    ensures { result ≡ is_syn_lem segment.now }
{
    segment[13] / 2 % 2 == 1
}
