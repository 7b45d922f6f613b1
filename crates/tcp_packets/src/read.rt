//! Packets of a capture, read as segments.

ghost use Rattle.std.specs.Prelude.{◌≡◌, ◌^◌, ◌<◌, true, if◌then◌else◌, None, Some, IfOk, IfSome, length};
ghost use Rattle.tcp_packets.specs.Headers.{carried as carried_lem, is_ipv4 as is_ipv4_lem, is_segment as is_segment_lem};
ghost use Rattle.tcp_packets.specs.Reading.{read_packet as read_packet_lem, segment_of};

use crate::fields::{data_offset, header_length, is_fragment, is_ipv4, is_segment, is_syn, is_tcp};
use crate::links::behind_link;
use crate::socket::Socket;
use pcap_form::{ByteOrder, Packet, half_at, word_at};
use std::marker::Model;
use tcp_seq::Seq;

/// A segment of TCP that was captured. Contracts see its fields, with its octets as a list.
#[derive(Debug, Drop)]
pub struct CapturedSegment<'a> {
    pub source: Socket,
    pub target: Socket,
    /// Whether it opens its connection (SYN).
    pub opens: bool,
    /// The sequence number of its first octet. Where it opens the connection that is the number behind that of its SYN.
    pub first: Seq,
    pub octets: &'a [u8],
}

impl<'a> Model for CapturedSegment<'a> {
    ghost use Rattle.tcp_packets.specs.Reading.{Segment};

    ghost Value = { Segment };

    ghost view = { λ s. record { source = s.source; target = s.target; opens = s.opens; first = s.first.0; octets = s.octets.now } };
}

/// Why a packet isn't read as a segment of TCP.
#[derive(Clone, Copy, Debug, PartialEq, Eq, Hash)]
pub enum LeftOut {
    /// It is a fragment of an IPv4 packet that carries TCP.
    Fragment,
    /// It is anything else: a packet that wasn't captured to its end too.
    Other,
}

/// Reads the segment of TCP in an IPv4 packet that is no fragment.
fn segment_in(packet: &[u8]) -> Option<CapturedSegment<'_>>
    requires { is_ipv4_lem packet.now ≡ true }
    ensures segment { result ≡ (if is_segment_lem (carried_lem packet.now) then Some (segment_of packet.now (carried_lem packet.now)) else None) }
    ensures short { IfSome result (λ s. length s.octets < 2 ^ 16) }
{
    let total = usize::from(half_at(ByteOrder::Big, packet, 2));
    let segment = &packet[..total][header_length(packet)..];
    if !is_segment(segment) {
        return None;
    }
    let source = Socket {
        address: word_at(ByteOrder::Big, packet, 12),
        port: half_at(ByteOrder::Big, segment, 0),
    };
    let target = Socket {
        address: word_at(ByteOrder::Big, packet, 16),
        port: half_at(ByteOrder::Big, segment, 2),
    };
    let opens = is_syn(segment);
    Some(CapturedSegment {
        source,
        target,
        opens,
        first: Seq(word_at(ByteOrder::Big, segment, 4)).plus(u32::from(opens)),
        octets: &segment[data_offset(segment)..],
    })
}

/// Reads a packet of a capture as a segment of TCP over IPv4. Its checksums aren't compared: many captures are taken where
/// these aren't filled in yet. The segment's octets stay where they are.
pub fn read_packet<'a>(packet: &Packet<'a>) -> Result<CapturedSegment<'a>, LeftOut>
    ensures segment { result ≡ read_packet_lem packet.now }
    ensures short { IfOk result (λ s. length s.octets < 2 ^ 16) }
{
    let packet = behind_link(packet.link(), packet.octets()).ok_or(LeftOut::Other)?;
    if !is_ipv4(packet) || !is_tcp(packet) {
        return Err(LeftOut::Other);
    }
    if is_fragment(packet) {
        return Err(LeftOut::Fragment);
    }
    segment_in(packet).ok_or(LeftOut::Other)
}
