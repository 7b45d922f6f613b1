//! Attributes as they stand in their field (RFC 4271, section 4.3).

ghost use Rattle.std.specs.Prelude.{◌≡◌, ◌<◌, ◌≤◌, ◌-◌, length, take, IfSome};
ghost use Rattle.std.specs.Option.{option_map};
ghost use Rattle.bgp_types.specs.Many.{number_at};
ghost use Rattle.bgp_types.specs.WireAttrs.{attr_at, size_width};
ghost use Rattle.attr_codec.specs.Pieces.{wire, wire_of, IsPiece};

use byteorder::{BigEndian, ByteOrder};

/// The flag of a length field of two octets (Extended Length).
pub const EXTENDED: u8 = 0x10;

/// An attribute within the bytes of its field: its flags, type and value, and all of its octets.
#[derive(Clone, Copy, Debug)]
pub struct Piece<'a> {
    pub flags: u8,
    pub kind: u8,
    pub value: &'a [u8],
    pub octets: &'a [u8],
}

/// Reads the length field behind these flags, and returns the octets after it too.
fn size_at(flags: u8, bytes: &[u8]) -> Option<(usize, &[u8])>
    ensures { option_map (λ x. (x.0, x.1.now)) result ≡ number_at (size_width flags) bytes.now }
{
    if flags & EXTENDED == 0 {
        let [size, rest @ ..] = bytes else {
            return None;
        };
        return Some((usize::from(*size), rest));
    }
    if bytes.len() < 2 {
        return None;
    }
    let (size, rest) = bytes.split_at(2);
    Some((usize::from(BigEndian::read_u16(size)), rest))
}

/// Returns flags, type and value of the first attribute of the field, and the octets after it; `None`
/// if the octets don't begin with a whole attribute.
#[tactic(auto, unfolding(bgp_types::specs::WireAttrs::attr_at))]
fn parts_at(bytes: &[u8]) -> Option<(u8, u8, &[u8], &[u8])>
    ensures parts { option_map (λ x. (wire_of x.0 x.1 x.2.now, x.3.now)) result ≡ attr_at bytes.now }
    ensures shorter { IfSome result (λ x. length x.3.now < length bytes.now) }
{
    let [flags, kind, rest @ ..] = bytes else {
        return None;
    };
    let (size, rest) = size_at(*flags, rest)?;
    if rest.len() < size {
        return None;
    }
    let (value, after) = rest.split_at(size);
    Some((*flags, *kind, value, after))
}

/// Returns the octets without as many at the end as `rest` has.
fn octets_before<'a>(octets: &'a [u8], rest: &[u8]) -> &'a [u8]
    requires { length rest.now ≤ length octets.now }
    ensures { result.now ≡ take (length octets.now - length rest.now) octets.now }
{
    let (front, _) = octets.split_at(octets.len() - rest.len());
    front
}

/// Returns the first attribute of the field, and the octets after it; `None` if the octets don't begin
/// with a whole attribute.
pub fn piece_at(bytes: &[u8]) -> Option<(Piece<'_>, &[u8])>
    ensures piece { option_map (λ x. (wire x.0, x.1.now)) result ≡ attr_at bytes.now }
    ensures octets { IfSome result (λ x. IsPiece x.0) }
    ensures kind { IfSome result (λ x. x.0.kind < 256) }
    ensures shorter { IfSome result (λ x. length x.1.now < length bytes.now) }
{
    let (flags, kind, value, after) = parts_at(bytes)?;
    let octets = octets_before(bytes, after);
    let piece = Piece {
        flags,
        kind,
        value,
        octets,
    };
    Some((piece, after))
}
