//! Reading a field of attributes.

ghost use Rattle.std.specs.Prelude.{◌≡◌, false, length, All};
ghost use Rattle.bgp_types.specs.Found.{attrs_in};
ghost use Rattle.attr_codec.specs.Decoding.{Decodes};
ghost use Rattle.attr_codec.specs.Saying.{all_said};

use crate::fault::{CodecFault, bare_fault};
use crate::piece::piece_at;
use crate::said::Said;
use bgp_types::FoundAttrs;
use std::alloc::Global;

/// The subcode of a malformed attribute list.
const MALFORMED_LIST: u8 = 1;

/// Returns a table of all types in which none is marked as present.
fn no_types() -> [bool; 256]
    ensures size { length result ≡ 256 }
    ensures none { All (λ there. there ≡ false) result }
{
    [false; 256]
}

/// Reads what the attributes give, each by itself, or the first fault.
fn said_at(alloc: Global, bytes: &[u8], wide: bool) -> Result<Said, CodecFault>
    ensures { Decodes result (all_said wide bytes.now) }
{
    let mut said = Said::new(alloc);
    let mut seen = no_types();
    let mut rest = bytes;
    while !rest.is_empty() {
        let Some((piece, after)) = piece_at(rest) else {
            return Err(bare_fault(alloc, MALFORMED_LIST));
        };
        let kind = usize::from(piece.kind);
        if seen[kind] {
            return Err(bare_fault(alloc, MALFORMED_LIST));
        }
        said.add(alloc, &piece, wide)?;
        seen[kind] = true;
        rest = after;
    }
    Ok(said)
}

/// Reads the attributes of an UPDATE in the given width of AS numbers. Returns what they give, or their
/// first fault with its data (RFC 4271, section 6.3). AS4_PATH and AS4_AGGREGATOR of a narrow UPDATE
/// are merged (RFC 6793, section 4.2.3). The time it takes grows with the length of the field.
pub fn read_attrs(alloc: Global, bytes: &[u8], wide: bool) -> Result<FoundAttrs, CodecFault>
    ensures { Decodes result (attrs_in wide bytes.now) }
{
    Ok(said_at(alloc, bytes, wide)?.found(alloc)?)
}
