//! Segments of a peering, as packets.

ghost use Rattle.std.specs.Prelude.{◌≡◌, ◌≤◌, ◌<◌, ◌^◌, length, IfOk, IfSome, option_copied, slice_get};
ghost use Rattle.std.specs.Option.{option_and_then};
ghost use Rattle.graft_actors.specs.Items.{placed_for};
ghost use Rattle.lab_capture.specs.Ends.{home_socket as home_socket_lem, remote_socket as remote_socket_lem};
ghost use Rattle.lab_capture.specs.Ends.{packet_to, sockets as sockets_lem};
ghost use Rattle.lab_capture.specs.Tapping.{IsShort, packet_of as packet_of_lem};

use graft_edge::{NoMemory, Octets, PeeringId};
use lab_tables::{LabInput, PeeringInput};
use std::alloc::Global;
use tcp_packets::{Socket, write_packet};
use tcp_seq::{Segment, Way, a_segment_has_its_offsets};

/// BGP's port (RFC 4271, section 4.2).
const BGP: u16 = 179;

/// The first of the ports that nobody is assigned (RFC 6335, section 6).
const FIRST_PORT: u16 = 49152;

/// The most octets of a segment that has room in a packet: 65,535 less the 40 of both headers.
const MOST_OCTETS: usize = 65495;

/// Returns the home side's end of the connection of a peering.
fn home_socket(peering: &PeeringInput) -> Socket
    ensures { result ≡ home_socket_lem peering.now }
{
    Socket {
        address: peering.local_address,
        port: BGP,
    }
}

/// Returns the remote's end of the connection of the peering of this number.
fn remote_socket(number: PeeringId, peering: &PeeringInput) -> Socket
    ensures { result ≡ remote_socket_lem number.0 peering.now }
{
    Socket {
        address: peering.remote_address,
        port: FIRST_PORT + u16::from(number.0),
    }
}

/// Returns the source and the target of segments that go to a side of the peering of this number.
fn sockets(way: Way, number: PeeringId, peering: &PeeringInput) -> (Socket, Socket)
    ensures { result ≡ sockets_lem way number.0 peering.now }
{
    let home = home_socket(peering);
    let remote = remote_socket(number, peering);
    match way {
        Way::Home => (remote, home),
        Way::Remote => (home, remote),
    }
}

/// The numbers of the first octets of both sides and those of a segment have 32 bits, as their types say.
fn have_32_bits(home: u32, remote: u32, seq: u32, ack: u32)
    ensures home { home < 2 ^ 32 }
    ensures remote { remote < 2 ^ 32 }
    ensures seq { seq < 2 ^ 32 }
    ensures ack { ack < 2 ^ 32 }
{}

/// Returns the peering of this number.
fn peering_at(input: &LabInput, number: PeeringId) -> Option<&PeeringInput>
    ensures { option_copied result ≡ slice_get input.now.peerings number.0 }
{
    input.peerings.get(usize::from(number.0))
}

/// Returns the packet of a segment of a peering.
fn written(alloc: Global, peering: &PeeringInput, segment: &Segment) -> Result<Octets, NoMemory>
    requires { length segment.now.bytes ≤ 65495 }
    ensures packet { IfOk result (λ octets. octets ≡ packet_to segment.now.way segment.now.peering.0 peering.now
        (placed_for segment.now.way peering.now.home_seq peering.now.remote_seq segment.now)) }
    ensures short { IfOk result IsShort }
{
    a_segment_has_its_offsets();
    have_32_bits(
        peering.home_seq,
        peering.remote_seq,
        segment.seq.0,
        segment.ack.0,
    );
    let (source, target) = sockets(segment.way, segment.peering, peering);
    write_packet(alloc, source, target, segment)
}

/// Returns the packet of a segment, if it has room in one. A peering that the input doesn't have has no packets.
fn packet_of(alloc: Global, input: &LabInput, segment: &Segment) -> Result<Option<Octets>, NoMemory>
    ensures packet { IfOk result (λ packet. packet ≡ packet_of_lem input.now segment.now) }
    ensures short { IfOk result (λ packet. IfSome packet IsShort) }
{
    if segment.bytes.len() > MOST_OCTETS {
        return Ok(None);
    }
    let Some(peering) = peering_at(input, segment.peering) else {
        return Ok(None);
    };
    Ok(Some(written(alloc, peering, segment)?))
}

/// Returns the packet of the segment at an index of a link, if there is one that has room in a packet.
pub(crate) fn packet_at(
    alloc: Global,
    input: &LabInput,
    link: &[Segment],
    index: usize,
) -> Result<Option<Octets>, NoMemory>
    ensures packet { IfOk result (λ packet. packet ≡ option_and_then (packet_of_lem input.now) (slice_get link.now index)) }
    ensures short { IfOk result (λ packet. IfSome packet IsShort) }
{
    match link.get(index) {
        Some(segment) => packet_of(alloc, input, segment),
        None => Ok(None),
    }
}
