//! The streams of a capture.

ghost use Rattle.std.specs.Prelude.{◌≡◌, Err, IfOk};
ghost use Rattle.captured_streams.specs.declared.stop.Hole.{Hole as HoleValue};
ghost use Rattle.captured_streams.specs.declared.stop.StreamStop.TheVariants as stops;
ghost use Rattle.captured_streams.specs.Readings.{IsHole, IsReading};

use crate::directed::{Peer, directed_segments};
use crate::flows::{bring_all, first_hole};
use crate::peers::Peers;
use crate::stop::StreamStop;
use graft_edge::{Items, Octets};
use pcap_form::Packet;
use std::alloc::Global;
use tcp_seq::Way;

/// What a segment brought that was in order then.
#[derive(Debug, Drop)]
pub struct Flow {
    /// The number of its connection.
    pub peer: usize,
    /// The side that it goes to.
    pub way: Way,
    pub octets: Octets,
}

/// The sessions of a capture.
#[derive(Debug, Drop)]
pub struct Streams {
    /// The first connection of each remote address on which it sends octets, in their order.
    pub peers: Items<Peer>,
    /// What their segments brought, in the order of the capture. Those of one connection and one way, one behind another,
    /// are its stream.
    pub flows: Items<Flow>,
    /// How many packets were left out as fragments.
    pub fragments: u64,
    /// How many segments were left out as those of other connections, longer ones by pieces of 4,096 octets.
    pub others: u64,
}

/// Reads the sessions of a capture: segments of TCP over IPv4 with BGP's port, 179, at one end. `home` is the address
/// of the home end; without it that is the end with BGP's port. Of each remote the first connection on which it sends
/// octets is its session: attempts that failed come before it. Each stream is put in order by a receiver with a window
/// of 16,384 octets, from the segment that opens the connection on, or else from the first one with octets: they may be
/// repeated, out of order, and overlap, and an octet that is there stays. Segments longer than 4,096 octets are taken
/// in pieces. Of a remote's octets none may be missing; else the error is the first hole: one in front of a segment
/// beyond the window, in the order of the capture, or else one that is left at its end, in the order of the
/// connections. The time that it takes grows with the number of octets.
pub fn captured_streams(
    alloc: Global,
    home: Option<u32>,
    packets: &[Packet],
) -> Result<Streams, StreamStop>
    ensures reading { IfOk result (IsReading home packets.now) }
    ensures hole { (hole : HoleValue) → result ≡ Err (stops.Hole hole) → IsHole home packets.now hole }
{
    let found = directed_segments(alloc, home, packets)?;
    let peers = Peers::of(alloc, &found.segments)?;
    let all = bring_all(alloc, &peers, &found.segments)?;
    if let Some(hole) = first_hole(&peers.list, &all.streams) {
        return Err(StreamStop::Hole(hole));
    }
    Ok(Streams {
        peers: peers.list,
        flows: all.flows,
        fragments: found.fragments,
        others: all.others,
    })
}
