//! A capture and its laboratory.

ghost use Rattle.std.specs.Prelude.{◌≡◌, ◌<◌, length, slice_get, Some, Err, IfOk};
ghost use Rattle.captured_streams.specs.declared.directed.Peer.{Peer as PeerValue};
ghost use Rattle.lab_import.specs.declared.capture.CaptureFault.{CaptureFault as FaultValue};
ghost use Rattle.lab_import.specs.declared.capture.Unimported.TheVariants as stops;
ghost use Rattle.lab_import.specs.declared.capture.CaptureFault.TheVariants as faults;
ghost use Rattle.lab_import.specs.Captures.{fault_line as fault_line_lem, remote_line as remote_line_lem, HasStreams, IsFault, IsImported};

use crate::limits::TextStop;
use crate::text::{is_read, lab_text};
use bgp_types::Address;
use captured_streams::{Hole, Peer, StreamStop, Streams, captured_streams};
use graft_edge::{Items, NoMemory, Octets};
use imported_sessions::{ImportStop, import_sessions};
use pcap_form::{CaptureStop, read_capture};
use std::alloc::Global;
use tcp_packets::Socket;
use thiserror::Error;

/// The most octets of a capture.
pub const MOST_CAPTURE: usize = 268_435_456;

/// Why a capture isn't imported.
#[derive(Clone, Copy, Debug, PartialEq, Eq, Hash, Error)]
pub enum CaptureFault {
    /// The place in the file of the first field that is cut off or wrong.
    #[error("form {0}")]
    Form(usize),
    /// The first octet of a remote that is missing.
    #[error("a hole")]
    Missing(Hole),
    /// The first remote that doesn't begin with a sound OPEN.
    #[error("no OPEN")]
    NoOpen(Socket),
    /// The place in a remote's stream of the first octet that has no room in an input.
    #[error("limit {1}")]
    Limit(Socket, u64),
    /// The text isn't read as the laboratory. This isn't known to happen.
    #[error("unread")]
    Unread,
}

/// Why there is no laboratory of a capture.
#[derive(Clone, Copy, Debug, PartialEq, Eq, Hash, Error)]
pub enum Unimported {
    #[error("bad capture: {0}")]
    Fault(CaptureFault),
    #[error("no memory")]
    NoMemory,
}

impl From<NoMemory> for Unimported {
    ghost use Rattle.std.specs.Prelude.{◌≡◌};
    ghost use Rattle.lab_import.specs.declared.capture.Unimported.TheVariants as stops;

    ghost from_gives = { λ _ stop. stop ≡ stops.NoMemory };

    fn from(_error: NoMemory) -> Unimported {
        Unimported::NoMemory
    }
}

/// Reads the sessions of a capture. The file isn't kept: what it brought stands in the streams.
fn read_streams(alloc: Global, home: Option<u32>, file: Octets) -> Result<Streams, Unimported>
    ensures streams { IfOk result (HasStreams home file) }
    ensures fault { (fault : FaultValue) → result ≡ Err (stops.Fault fault) → IsFault home file fault }
{
    let packets = match read_capture(alloc, &file) {
        Ok(packets) => packets,
        Err(CaptureStop::Form(place)) => return Err(Unimported::Fault(CaptureFault::Form(place))),
        Err(CaptureStop::NoMemory) => return Err(Unimported::NoMemory),
    };
    match captured_streams(alloc, home, &packets) {
        Ok(streams) => Ok(streams),
        Err(StreamStop::Hole(hole)) => Err(Unimported::Fault(CaptureFault::Missing(hole))),
        Err(StreamStop::NoMemory) => Err(Unimported::NoMemory),
    }
}

/// Returns the remote of the connection with this number.
fn remote_of(peers: &[Peer], number: usize) -> Socket
    requires { number < length peers.now }
    ensures { (peer : PeerValue) × (slice_get peers.now number ≡ Some peer) × (result ≡ peer.remote) }
{
    peers[number].remote
}

/// Imports a capture, pcap or pcapng: the text of a laboratory with its sessions of BGP over TCP and IPv4, in which
/// each remote says just the octets that it says in the capture. `home` is the address of the home side; without it
/// that is the end with port 179 (RFC 4271, section 4.2). The text is always one that `read_lab` accepts. A file that
/// is no capture is refused first, then a hole in what a remote says, then a remote without an OPEN, then what has no
/// room in an input.
pub fn import_capture(alloc: Global, home: Option<u32>, file: Octets) -> Result<Octets, Unimported>
    ensures imported { IfOk result (IsImported home file) }
    ensures fault { (fault : FaultValue) → result ≡ Err (stops.Fault fault) → IsFault home file fault }
{
    let streams = read_streams(alloc, home, file)?;
    let imported = match import_sessions(alloc, &streams) {
        Ok(imported) => imported,
        Err(ImportStop::NoOpen(remote)) => {
            return Err(Unimported::Fault(CaptureFault::NoOpen(remote)));
        }
        Err(ImportStop::NoMemory) => return Err(Unimported::NoMemory),
    };
    let text = match lab_text(alloc, &imported) {
        Ok(text) => text,
        Err(TextStop::Beyond(beyond)) => {
            let remote = remote_of(&streams.peers, beyond.peer);
            return Err(Unimported::Fault(CaptureFault::Limit(remote, beyond.octet)));
        }
        Err(TextStop::NoMemory) => return Err(Unimported::NoMemory),
    };
    if !is_read(alloc, &text, &imported)? {
        return Err(Unimported::Fault(CaptureFault::Unread));
    }
    Ok(text)
}

/// Returns the line of a fault in the form of a file.
fn form_line(alloc: Global, place: usize) -> Result<Octets, NoMemory>
    ensures { IfOk result (λ line. line ≡ fault_line_lem (faults.Form place)) }
{
    let text = format!(in alloc; "bad capture: form {place}\n")?;
    Ok(Items::from_vec(text.into_bytes()))
}

/// Returns the line of a fault at an octet of a remote's stream.
fn remote_line(alloc: Global, remote: Socket, kind: &str, octet: u64) -> Result<Octets, NoMemory>
    ensures { IfOk result (λ line. line ≡ remote_line_lem remote kind.now octet) }
{
    let address = Address(remote.address);
    let port = remote.port;
    let text = format!(in alloc; "bad capture: {address}:{port} {kind} {octet}\n")?;
    Ok(Items::from_vec(text.into_bytes()))
}

/// Returns the line that is said of a fault.
pub fn fault_line(alloc: Global, fault: CaptureFault) -> Result<Octets, NoMemory>
    ensures { IfOk result (λ line. line ≡ fault_line_lem fault) }
{
    match fault {
        CaptureFault::Form(place) => form_line(alloc, place),
        CaptureFault::Missing(hole) => remote_line(alloc, hole.remote, "hole", hole.octet),
        CaptureFault::NoOpen(remote) => remote_line(alloc, remote, "bgp", 0),
        CaptureFault::Limit(remote, octet) => remote_line(alloc, remote, "limit", octet),
        CaptureFault::Unread => Ok(Items::from_slice(alloc, b"bad capture: unread\n")?),
    }
}
