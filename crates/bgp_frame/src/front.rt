//! The message at the front of bytes that the caller holds.

ghost use Rattle.std.specs.Prelude.{◌≡◌, [], take, Some, IfOk, IfSome};
ghost use Rattle.bgp_types.specs.Header.{frame_at};
ghost use Rattle.bgp_frame.specs.Next.{IsFrontOf};

use bgp_types::{HEADER, HeaderFault, header_fault, header_len};

/// A whole message with a sound header at the front of bytes: its type, and its length in octets
/// with the header.
#[derive(Clone, Copy, Debug, PartialEq, Eq)]
pub struct FrontFrame {
    pub kind: u8,
    pub len: usize,
}

/// Returns the message at the front of the bytes if it is whole, `None` if there are fewer octets than
/// a header has or than a sound header gives as its length, and the fault if the header is faulty. What
/// comes behind the message doesn't matter. It copies nothing, and takes the same short time for any
/// bytes.
#[tactic(auto, unfolding(bgp_types::specs::Header::frame_at), using(bgp_types::proofs::FrameLaws::long_enough))]
pub fn first_frame(bytes: &[u8]) -> Result<Option<FrontFrame>, HeaderFault>
    ensures front { IsFrontOf result bytes.now }
    ensures whole { IfOk result (λ front. IfSome front (λ f. frame_at (take f.len bytes.now) ≡ Some (take f.len bytes.now, []))) }
{
    if bytes.len() < HEADER {
        return Ok(None);
    }
    if let Some(fault) = header_fault(bytes) {
        return Err(fault);
    }
    let len = usize::from(header_len(bytes));
    if bytes.len() < len {
        return Ok(None);
    }
    Ok(Some(FrontFrame {
        kind: bytes[18],
        len,
    }))
}
