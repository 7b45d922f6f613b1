//! Reads a whole frame.

ghost use Rattle.std.specs.Prelude.{◌≡◌, ◌≤◌, [], length, Some, IfOk};
ghost use Rattle.attr_codec.specs.Decoding.{Decodes};
ghost use Rattle.bgp_types.specs.FirstFault.{is_in_state, notice_of, body_of, message_of};
ghost use Rattle.bgp_types.specs.Header.{frame_at, header_notice};

use crate::fault::fault;
use crate::open::read_open;
use crate::update::read_update;
use attr_codec::CodecFault;
use bgp_types::types::{KEEPALIVE, NOTIFICATION, OPEN, UPDATE};
use bgp_types::{Expected, HEADER, HeaderFault, Message, NoMemory, Notice, Octets, SessionState};
use std::alloc::Global;

/// The error code of a fault in the state machine.
const STATE_FAULT: u8 = 5;

/// The error code of a fault in a header.
const HEADER_FAULT: u8 = 1;

/// The subcodes of faults in a header.
const NOT_SYNCHRONIZED: u8 = 1;

const BAD_LENGTH: u8 = 2;

const BAD_TYPE: u8 = 3;

/// Whether a session in this state accepts a message of this type.
fn is_in_state(state: SessionState, kind: u8) -> bool
    ensures { result ≡ is_in_state state kind }
{
    match state {
        SessionState::OpenSent => kind == OPEN || kind == NOTIFICATION,
        SessionState::OpenConfirm => kind == KEEPALIVE || kind == NOTIFICATION,
        SessionState::Established => { kind == KEEPALIVE || kind == UPDATE || kind == NOTIFICATION }
        SessionState::Closed => kind == NOTIFICATION,
    }
}

/// Reads the code, subcode and data of a NOTIFICATION.
fn read_notice(alloc: Global, body: &[u8]) -> Result<Notice, NoMemory>
    requires { 2 ≤ length body.now }
    ensures { IfOk result (λ n. n ≡ notice_of body.now) }
{
    let (code, subcode) = (body[0], body[1]);
    let (_, info) = body.split_at(2);
    Ok(Notice {
        code,
        subcode,
        info: Octets::from_slice(alloc, info)?,
    })
}

/// Reads the message of a type with this body, or finds the first fault of the body.
#[tactic(auto, unfolding(bgp_types::specs::FirstFault::body_of))]
fn read_body(
    alloc: Global,
    kind: u8,
    body: &[u8],
    expected: &Expected,
) -> Result<Message, CodecFault>
    requires open_long { kind ≡ 1 → 10 ≤ length body.now }
    requires notice_long { kind ≡ 3 → 2 ≤ length body.now }
    ensures { Decodes result (body_of expected.now kind body.now) }
{
    match kind {
        OPEN => Ok(Message::OpenMsg(read_open(alloc, body, expected)?)),
        UPDATE => Ok(Message::UpdateMsg(read_update(alloc, body, expected.wide)?)),
        NOTIFICATION => Ok(Message::NoticeMsg(read_notice(alloc, body)?)),
        _ => Ok(Message::KeepaliveMsg),
    }
}

/// Reads a whole frame with a sound header, as a framer gives it, in the state of a session. Returns
/// the message, or the NOTIFICATION that answers the first fault, in the state or in the body (RFC
/// 4271, section 6). A state accepts the types of messages that the standard names for it. A session
/// that is `Closed`, whose NOTIFICATION was sent or received, accepts only a NOTIFICATION; any other
/// type is a fault of the state (code 5). AS numbers have four octets where the session is wide, else
/// two. The time it takes grows with the length of the frame, and with `n log n` for `n` prefixes.
pub fn read_message(alloc: Global, bytes: &[u8], expected: &Expected) -> Result<Message, CodecFault>
    requires { frame_at bytes.now ≡ Some (bytes.now, []) }
    ensures { Decodes result (message_of expected.now bytes.now) }
{
    let kind = bytes[18];
    if !is_in_state(expected.state, kind) {
        return Err(fault(alloc, STATE_FAULT, 0, &[]));
    }
    let (_, body) = bytes.split_at(HEADER);
    read_body(alloc, kind, body, expected)
}

/// Returns the NOTIFICATION that answers a faulty header: code 1, the subcode of the fault, and as data
/// the length or the type in the header (RFC 4271, section 6.1).
pub fn header_notice(alloc: Global, fault: HeaderFault) -> Result<Notice, NoMemory>
    ensures { IfOk result (λ notice. notice ≡ header_notice fault) }
{
    let (subcode, info) = match fault {
        HeaderFault::NotSynchronized => (NOT_SYNCHRONIZED, Octets::new(alloc)),
        HeaderFault::BadLength(len) => (BAD_LENGTH, Octets::from_slice(alloc, &len.to_be_bytes())?),
        HeaderFault::BadType(kind) => (BAD_TYPE, Octets::from_slice(alloc, &[kind])?),
    };
    Ok(Notice {
        code: HEADER_FAULT,
        subcode,
        info,
    })
}
