//! UPDATEs that a session may put.

ghost use Rattle.std.specs.Prelude.{◌≡◌, ◌≤◌, ◌↔◌, [], length, All, None, Some, IfOk, IsTrue};
ghost use Rattle.std.specs.Bool.{OnTrue};
ghost use Rattle.std.specs.FinMap as map;
ghost use Rattle.bgp_types.specs.Header.{frame_at};
ghost use Rattle.bgp_types.specs.Spelling.{spell};
ghost use Rattle.bgp_types.specs.Writable.{IsWritable};
ghost use Rattle.bgp_wire.specs.Written.{written_limit};
ghost use Rattle.bgp_story.specs.Legal.{IsOneWay};

use adj_rib::AdjRib;
use anyhow::{Result, bail};
use bgp_frame::first_frame;
use bgp_types::{Expected, Message, NoMemory, Prefix, SessionState, Update, message_len};
use bgp_wire::{CodecFault, read_message, read_message_is_writable};
use std::alloc::Global;

/// The limits of the written form in octets: of an OPEN, and of any other message.
const LONGEST_OPEN: usize = 284;

const LONGEST: usize = 4_096;

/// Returns whether the written form of a message fits.
fn fits(message: &Message, wide: bool) -> bool
    ensures { IsTrue result ↔ (length (spell message.now wide) ≤ written_limit message.now) }
{
    let limit = match message {
        Message::OpenMsg(_) => LONGEST_OPEN,
        _ => LONGEST,
    };
    message_len(message, wide) <= limit
}

/// Returns the message that a frame spells.
fn message_in(alloc: Global, frame: &[u8], expected: &Expected) -> Result<Message>
    requires { frame_at frame.now ≡ Some (frame.now, []) }
    ensures { IfOk result (λ message. IsWritable message expected.now.wide) }
{
    let message = match read_message(alloc, frame, expected) {
        Ok(message) => message,
        Err(CodecFault::Wire(_)) => bail!("a sound message"),
        Err(CodecFault::NoMemory) => return Err(NoMemory.into()),
    };
    if !fits(&message, expected.wide) {
        bail!("a message that can be written");
    }
    read_message_is_writable();
    Ok(message)
}

/// Returns the UPDATE that octets spell in a width. It announces, and withdraws nothing.
pub fn announcement_of(alloc: Global, octets: &[u8], wide: bool) -> Result<Update>
    ensures one_way { IfOk result (λ update. IsOneWay update wide) }
    ensures announces { IfOk result (λ update. update.withdrawn ≡ []) }
{
    let Ok(Some(front)) = first_frame(octets) else {
        bail!("a message");
    };
    let expected = Expected {
        state: SessionState::Established,
        remote_as: 65_000,
        offered: wide,
        wide,
    };
    match message_in(alloc, &octets[..front.len], &expected)? {
        Message::UpdateMsg(update) => {
            if update.withdrawn.len() > 0 || update.nlri.len() == 0 {
                bail!("an UPDATE that announces");
            }
            Ok(update)
        }
        _ => bail!("an UPDATE"),
    }
}

/// Returns whether no prefix has a route.
pub fn is_new(adj_rib_out: &AdjRib, prefixes: &[Prefix]) -> bool
    ensures { OnTrue result (All (λ prefix. map.get adj_rib_out.now prefix ≡ None) prefixes.now) }
{
    prefixes
        .iter()
        .all(|prefix| adj_rib_out.get(*prefix).is_none())
}
