//! Segments, written as packets.

ghost use Rattle.std.specs.Prelude.{◌≡◌, ◌≤◌, length, IfOk};
ghost use Rattle.tcp_packets.specs.Writing.{written_packet};
ghost use Rattle.tcp_packets.specs.Writing.{ip_header as ip_header_lem, tcp_header as tcp_header_lem, pseudo_header as pseudo_header_lem};

use crate::checksum::{checksum, word_sum};
use crate::socket::Socket;
use graft_edge::{NoMemory, Octets};
use std::alloc::Global;
use tcp_reasm::WINDOW;
use tcp_seq::Segment;

/// Returns the header of IPv4 with a checksum.
fn ip_header(check: u16, source: Socket, target: Socket, segment: &Segment) -> [u8; 20]
    requires { length segment.now.bytes ≤ 65495 }
    ensures { result ≡ ip_header_lem check source target segment.now }
{
    let total = (40 + segment.bytes.len() as u16).to_be_bytes();
    let check = check.to_be_bytes();
    let from = source.address.to_be_bytes();
    let to = target.address.to_be_bytes();
    [
        0x45, 0, total[0], total[1], 0, 0, 0x40, 0, 64, 6, check[0], check[1], from[0], from[1],
        from[2], from[3], to[0], to[1], to[2], to[3],
    ]
}

/// Returns the header of TCP with a checksum.
fn tcp_header(check: u16, source: Socket, target: Socket, segment: &Segment) -> [u8; 20]
    ensures { result ≡ tcp_header_lem check source target segment.now }
{
    let from = source.port.to_be_bytes();
    let to = target.port.to_be_bytes();
    let seq = segment.seq.0.to_be_bytes();
    let ack = segment.ack.0.to_be_bytes();
    let flags = if segment.bytes.is_empty() { 0x10 } else { 0x18 };
    let window = (WINDOW as u16).to_be_bytes();
    let check = check.to_be_bytes();
    [
        from[0], from[1], to[0], to[1], seq[0], seq[1], seq[2], seq[3], ack[0], ack[1], ack[2],
        ack[3], 0x50, flags, window[0], window[1], check[0], check[1], 0, 0,
    ]
}

/// Returns what TCP's checksum covers before the segment.
fn pseudo_header(source: Socket, target: Socket, segment: &Segment) -> [u8; 12]
    requires { length segment.now.bytes ≤ 65495 }
    ensures { result ≡ pseudo_header_lem source target segment.now }
{
    let from = source.address.to_be_bytes();
    let to = target.address.to_be_bytes();
    let length = (20 + segment.bytes.len() as u16).to_be_bytes();
    [
        from[0], from[1], from[2], from[3], to[0], to[1], to[2], to[3], 0, 6, length[0], length[1],
    ]
}

/// Returns the IPv4 packet of a segment of 65,495 octets at most, between two ends of a connection: 20 octets of IPv4's
/// header (RFC 791, section 3.1), 20 of TCP's (RFC 9293, section 3.1), and the segment's. The window is 16,384, and both
/// checksums are right.
pub fn write_packet(
    alloc: Global,
    source: Socket,
    target: Socket,
    segment: &Segment,
) -> Result<Octets, NoMemory>
    requires { length segment.now.bytes ≤ 65495 }
    ensures { IfOk result (λ octets. octets ≡ written_packet source target segment.now) }
{
    let ip_check = checksum(word_sum(&ip_header(0, source, target, segment)));
    let pseudo_sum = word_sum(&pseudo_header(source, target, segment));
    let header_sum = word_sum(&tcp_header(0, source, target, segment));
    let tcp_check = checksum(pseudo_sum + header_sum + word_sum(&segment.bytes));
    let mut octets = Octets::new(alloc);
    octets.extend(&ip_header(ip_check, source, target, segment))?;
    octets.extend(&tcp_header(tcp_check, source, target, segment))?;
    octets.extend(&segment.bytes)?;
    Ok(octets)
}
