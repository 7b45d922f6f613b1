//! The type of what was got (RFC 4271, section 4.1).

ghost use Rattle.std.specs.Prelude.{◌≡◌};
ghost use Rattle.bgp_story.specs.States.{is_type as is_type_lem};

use bgp_types::{HEADER, header_fault};

/// Whether octets begin with a sound header of this type.
pub fn is_type(kind: u8, octets: &[u8]) -> bool
    ensures { result ≡ is_type_lem kind octets.now }
{
    octets.len() >= HEADER && header_fault(octets).is_none() && octets[18] == kind
}
