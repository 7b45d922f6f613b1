//! The answers of a session.

ghost use Rattle.std.specs.Prelude.{◌≡◌, ◌≤◌, ◌↔◌, [], length, Some, IsTrue};
ghost use Rattle.bgp_types.specs.Header.{frame_at};
ghost use Rattle.bgp_types.specs.Spelling.{spell};
ghost use Rattle.bgp_wire.specs.Written.{written_limit};

use anyhow::Result;
use bgp_frame::{FrameStop, Framer};
use bgp_types::{Expected, Message, NoMemory, Notice, message_len};
use bgp_wire::{CodecFault, header_notice, read_message, read_message_is_writable, write_message};
use std::alloc::Global;

/// The limits of the written form in octets: of an OPEN, and of any other message.
const LONGEST_OPEN: usize = 284;

const LONGEST: usize = 4096;

/// Returns the octets of a NOTIFICATION's body: code, subcode and data.
fn notice_text(alloc: Global, notice: &Notice) -> Result<String> {
    let mut octets = vec![in alloc; notice.code, notice.subcode]?;
    octets.extend_from_slice(notice.info.as_slice())?;
    Ok(hex::encode_upper(alloc, octets)?)
}

/// Returns whether the written form of a message fits.
fn fits(message: &Message, wide: bool) -> bool
    ensures { IsTrue result ↔ (length (spell message.now wide) ≤ written_limit message.now) }
{
    let limit = match message {
        Message::OpenMsg(_) => LONGEST_OPEN,
        _ => LONGEST,
    };
    message_len(message, wide) <= limit
}

/// Returns the answer to a whole frame: the written form of the message that is read, or a NOTIFICATION.
fn answer_to_frame(alloc: Global, frame: &[u8], expected: &Expected) -> Result<String>
    requires { frame_at frame.now ≡ Some (frame.now, []) }
{
    let message = match read_message(alloc, frame, expected) {
        Ok(message) => message,
        Err(CodecFault::Wire(notice)) => return notice_text(alloc, &notice),
        Err(CodecFault::NoMemory) => return Err(NoMemory.into()),
    };
    if !fits(&message, expected.wide) {
        return Ok(format!(in alloc; "reads as what is too long to be written")?);
    }
    read_message_is_writable();
    let octets = write_message(alloc, &message, expected.wide)?;
    let octets = hex::encode_upper(alloc, octets.as_slice())?;
    Ok(format!(in alloc; "reads as {octets}")?)
}

/// Returns the answer to the first message of a stream.
pub fn answer_to(alloc: Global, octets: &[u8], expected: &Expected) -> Result<String> {
    let mut framer = Framer::new(alloc);
    framer.feed(octets)?;
    match framer.next() {
        Ok(Some(frame)) => answer_to_frame(alloc, frame.bytes.as_slice(), expected),
        Ok(None) => Ok(format!(in alloc; "waits")?),
        Err(FrameStop::Header(fault)) => notice_text(alloc, &header_notice(alloc, fault)?),
        Err(FrameStop::NoMemory) => Err(NoMemory.into()),
    }
}
