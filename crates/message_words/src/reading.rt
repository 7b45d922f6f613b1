//! What a session read in octets that it got.

ghost use Rattle.std.specs.Prelude.{◌≡◌, IfOk};
ghost use Rattle.std.specs.List.{AllByRecursion};
ghost use Rattle.attr_codec.specs.Decoding.{Decodes};
ghost use Rattle.bgp_types.specs.FirstFault.{message_of};
ghost use Rattle.bgp_story.specs.Laws.{IsGotLine};
ghost use Rattle.bgp_story.specs.Legal.{IsGot, open_in, got_open};

use bgp_story::Line;
use bgp_types::{Expected, Message, NoMemory, OpenMsg, SessionState, header_fault};
use bgp_wire::{CodecFault, as_said, header_notice, read_message};
use std::alloc::Global;

/// Returns the message that a session which expects this reads in octets that it got at once, or the first fault that it finds (RFC 4271,
/// section 6). The octets are a whole message with a sound header, or a header with a fault.
#[tactic(auto, using(crate::proofs::Frames::got_header, crate::proofs::Frames::got_frame, crate::proofs::Frames::fault_read))]
pub fn read_got(alloc: Global, expected: &Expected, bytes: &[u8]) -> Result<Message, CodecFault>
    requires { IsGot bytes.now }
    ensures { Decodes result (message_of expected.now bytes.now) }
{
    match header_fault(bytes) {
        Some(fault) => Err(CodecFault::Wire(header_notice(alloc, fault)?)),
        None => read_message(alloc, bytes, expected),
    }
}

/// Returns the OPEN that octets are read as, if they are one.
fn open_in(alloc: Global, expected: &Expected, bytes: &[u8]) -> Result<Option<OpenMsg>, NoMemory>
    requires { IsGot bytes.now }
    ensures { IfOk result (λ o. o ≡ open_in (message_of expected.now bytes.now)) }
{
    match read_got(alloc, expected, bytes) {
        Ok(Message::OpenMsg(theirs)) => Ok(Some(theirs)),
        Ok(_) | Err(CodecFault::Wire(_)) => Ok(None),
        Err(CodecFault::NoMemory) => Err(NoMemory),
    }
}

/// Returns the OPEN that a session got, if it did, by the lines of its story, the OPEN that it put and the AS of its remote. Both OPENs say in which
/// width AS numbers are written, and the hold time.
#[tactic(auto, using(crate::proofs::Openings::open_later))]
pub fn open_got(
    alloc: Global,
    first: &OpenMsg,
    remote_as: u32,
    lines: &[Line],
) -> Result<Option<OpenMsg>, NoMemory>
    requires { AllByRecursion IsGotLine lines.now }
    ensures { IfOk result (λ o. o ≡ got_open (record { first = first.now; remote_as = remote_as }) lines.now) }
{
    let expected = Expected {
        state: SessionState::OpenSent,
        remote_as,
        offered: as_said(&first.caps).is_some(),
        wide: false,
    };
    for line in lines {
        match line {
            Line::Got(bytes) => return open_in(alloc, &expected, bytes),
            Line::Put(_) | Line::Tick(_) => {}
        }
    }
    Ok(None)
}
