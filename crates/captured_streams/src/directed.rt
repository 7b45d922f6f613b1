//! Segments of BGP's connections, and which way they go.

ghost use Rattle.std.specs.Prelude.{◌≡◌, ◌<◌, ◌^◌, ◌∷◌, [], List, length, count_by, IfOk, IfSome, MatchOption};
ghost use Rattle.std.specs.List.{All};
ghost use Rattle.captured_streams.specs.Directed.{is_bgp as is_bgp_lem, way_of as way_of_lem, peer_of as peer_of_lem};
ghost use Rattle.captured_streams.specs.Directed.{directed, directed_in};
ghost use Rattle.captured_streams.specs.Readings.{is_fragment};

use crate::pieces::{MOST_PIECES, push_pieces};
use graft_edge::{Items, NoMemory};
use pcap_form::Packet;
use std::alloc::Global;
use tcp_packets::{CapturedSegment, LeftOut, Socket, read_packet};
use tcp_seq::Way;

/// BGP's port.
const BGP: u16 = 179;

/// A connection of BGP: its home end, and its remote one.
#[derive(Clone, Copy, Debug, PartialEq, Eq, Hash)]
pub struct Peer {
    pub home: Socket,
    pub remote: Socket,
}

/// A segment between a home end and a remote, one way.
#[derive(Drop)]
pub(crate) struct Directed<'a> {
    pub(crate) peer: Peer,
    pub(crate) way: Way,
    pub(crate) segment: CapturedSegment<'a>,
}

/// What a capture has.
#[derive(Drop)]
pub(crate) struct Found<'a> {
    /// The segments of BGP's connections in pieces, in the order of the capture.
    pub(crate) segments: Items<Directed<'a>>,
    /// How many packets are fragments.
    pub(crate) fragments: u64,
}

/// Whether BGP's port is at one end.
fn is_bgp(segment: &CapturedSegment<'_>) -> bool
    ensures { result ≡ is_bgp_lem segment.now }
{
    segment.source.port == BGP || segment.target.port == BGP
}

/// Returns which way a segment goes. `home` is the address of the home end; without it that is the end with BGP's port, and
/// of two of them the one that the segment comes from.
fn way_of(home: Option<u32>, segment: &CapturedSegment<'_>) -> Option<Way>
    ensures { result ≡ way_of_lem home segment.now }
{
    let Some(address) = home else {
        return Some(if segment.source.port == BGP {
            Way::Remote
        } else {
            Way::Home
        });
    };
    if segment.source.address == address {
        return Some(Way::Remote);
    }
    if segment.target.address == address {
        return Some(Way::Home);
    }
    None
}

/// Returns the connection of a segment that goes this way.
fn peer_of(way: Way, segment: &CapturedSegment<'_>) -> Peer
    ensures { result ≡ peer_of_lem way segment.now }
{
    match way {
        Way::Home => Peer {
            home: segment.target,
            remote: segment.source,
        },
        Way::Remote => Peer {
            home: segment.source,
            remote: segment.target,
        },
    }
}

/// Returns the segment that a packet is read as, if it is one of BGP's.
fn directed_segment<'a>(home: Option<u32>, segment: CapturedSegment<'a>) -> Option<Directed<'a>>
    ensures segment { let all = directed_in home (Ok segment.entry) in MatchOption result (all ≡ []) (λ s. all ≡ s ∷ []) }
    ensures same { IfSome result (λ s. s.segment ≡ segment.entry) }
{
    if !is_bgp(&segment) {
        return None;
    }
    let way = way_of(home, &segment)?;
    let peer = peer_of(way, &segment);
    Some(Directed { peer, way, segment })
}

/// Returns the segments of BGP's connections in a capture, long ones in pieces.
pub(crate) fn directed_segments<'a>(
    alloc: Global,
    home: Option<u32>,
    packets: &[Packet<'a>],
) -> Result<Found<'a>, NoMemory>
    ensures segments { IfOk result (λ found. found.segments ≡ directed home packets.now) }
    ensures fragments { IfOk result (λ found. found.fragments ≡ count_by is_fragment packets.now) }
    ensures short { IfOk result (λ found. All (λ s. length s.segment.octets < 2 ^ 16) found.segments) }
{
    let mut segments = Items::new(alloc);
    let mut fragments = 0;
    for packet in packets {
        match read_packet(packet) {
            Ok(segment) => {
                let Some(directed) = directed_segment(home, segment) else {
                    continue;
                };
                push_pieces(&mut segments, directed, MOST_PIECES)?;
            }
            Err(LeftOut::Fragment) => fragments += 1,
            Err(LeftOut::Other) => {}
        }
    }
    Ok(Found {
        segments,
        fragments,
    })
}
