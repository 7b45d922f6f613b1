//! The OPENs of sessions.

ghost use Rattle.std.specs.Prelude.{◌≡◌, ◌<◌, ◌≤◌, [], length, map, drop, slice_get, Some, Err, IfOk};
ghost use Rattle.std.specs.List.{range_with_len};
ghost use Rattle.std.specs.Result.{result_ok};
ghost use Rattle.bgp_types.specs.Header.{frame_at, kind_in};
ghost use Rattle.bgp_types.specs.OpenBody.{open_of};
ghost use Rattle.tcp_packets.specs.declared.socket.Socket.{Socket as SocketValue};
ghost use Rattle.imported_sessions.specs.declared.sessions.ImportStop.TheVariants as stops;
ghost use Rattle.imported_sessions.specs.Heard.{session_at};
ghost use Rattle.imported_sessions.specs.Imports.{IsFirstWithoutOpen};
ghost use Rattle.imported_sessions.specs.Opened.{AreAllOpened, open_told};
ghost use Rattle.imported_sessions.specs.Opens.{any_as as any_as_lem, as_of as as_of_lem, first_open, with_as as with_as_lem};

use crate::heard::{Session, front_message};
use crate::sessions::ImportStop;
use bgp_types::types::OPEN;
use bgp_types::{Expected, HEADER, Message, NoMemory, Octets, OpenMsg, SessionState};
use bgp_wire::{CodecFault, as_said, read_message};
use byteorder::{BigEndian, ByteOrder};
use captured_streams::{Peer, Streams};
use graft_edge::Items;
use std::alloc::Global;

/// A session whose remote begins with a sound OPEN.
#[derive(Drop)]
pub(crate) struct Opened {
    /// The number of its connection.
    pub(crate) peer: usize,
    pub(crate) remote_as: u32,
    /// The remote's OPEN.
    pub(crate) remote: OpenMsg,
    /// That of the home side, if it was captured.
    pub(crate) home: Option<OpenMsg>,
    /// The remote's opening.
    pub(crate) opening: Octets,
}

/// Returns the AS of an OPEN.
pub(crate) fn as_of(message: &OpenMsg) -> u32
    ensures { result ≡ as_of_lem message.now }
{
    as_said(&message.caps).unwrap_or(message.as_number)
}

/// What an OPEN with this body is checked against, if any AS will do.
fn any_as(body: &[u8]) -> Expected
    requires { 10 ≤ length body.now }
    ensures { result ≡ any_as_lem body.now }
{
    Expected {
        state: SessionState::OpenSent,
        remote_as: u32::from(BigEndian::read_u16(&body[1..3])),
        offered: false,
        wide: false,
    }
}

/// Returns a message if it is an OPEN.
fn into_open(message: Message) -> Option<OpenMsg>
    ensures { result ≡ open_told message }
{
    match message {
        Message::OpenMsg(message) => Some(message),
        Message::UpdateMsg(_) | Message::NoticeMsg(_) | Message::KeepaliveMsg => None,
    }
}

/// Reads an OPEN. Returns `None` if it isn't sound.
#[tactic(auto, using(bgp_wire::proofs::FrameLaws::sound_is))]
fn open_message(alloc: Global, frame: &[u8]) -> Result<Option<OpenMsg>, NoMemory>
    requires whole { frame_at frame.now ≡ Some (frame.now, []) }
    requires kind { kind_in frame.now ≡ 1 }
    ensures { IfOk result (λ o. o ≡ result_ok (open_of (any_as_lem (drop 19 frame.now)) (drop 19 frame.now))) }
{
    let (_, body) = frame.split_at(HEADER);
    match read_message(alloc, frame, &any_as(body)) {
        Ok(message) => Ok(into_open(message)),
        Err(CodecFault::Wire(_)) => Ok(None),
        Err(CodecFault::NoMemory) => Err(NoMemory),
    }
}

/// Returns an OPEN if its AS isn't 0.
fn with_as(message: Option<OpenMsg>) -> Option<OpenMsg>
    ensures { result ≡ with_as_lem message }
{
    let message = message?;
    if as_of(&message) == 0 {
        return None;
    }
    Some(message)
}

/// Returns the sound OPEN with which octets begin, if they do. It may be of any AS but 0.
fn read_open(alloc: Global, octets: &[u8]) -> Result<Option<OpenMsg>, NoMemory>
    ensures { IfOk result (λ o. o ≡ first_open octets.now) }
{
    let Some(front) = front_message(octets) else {
        return Ok(None);
    };
    if front.kind != OPEN {
        return Ok(None);
    }
    let message = open_message(alloc, &octets[..front.len])?;
    Ok(with_as(message))
}

/// Returns the ends of the connection with this number.
pub(crate) fn ends(peers: &[Peer], number: usize) -> Peer
    requires { number < length peers.now }
    ensures { slice_get peers.now number ≡ Some result }
{
    peers[number]
}

/// Reads the OPENs of sessions.
pub(crate) fn open_all(
    alloc: Global,
    streams: &Streams,
    sessions: Vec<Session>,
) -> Result<Items<Opened>, ImportStop>
    requires { sessions.items ≡ map (session_at streams.now.flows) (range_with_len 0 (length streams.now.peers)) }
    ensures opened { IfOk result (AreAllOpened streams.now) }
    ensures stop { (remote : SocketValue) → result ≡ Err (stops.NoOpen remote) → IsFirstWithoutOpen streams.now remote }
{
    let mut all = Items::new(alloc);
    for session in sessions {
        let Some(remote) = read_open(alloc, &session.opening.octets)? else {
            return Err(ImportStop::NoOpen(ends(&streams.peers, session.peer).remote));
        };
        all.push(Opened {
            peer: session.peer,
            remote_as: as_of(&remote),
            remote,
            home: read_open(alloc, &session.home)?,
            opening: session.opening.octets,
        })?;
    }
    Ok(all)
}
