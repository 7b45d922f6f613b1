//! The header of a message (RFC 4271, sections 4.1 and 6.1).

ghost use Rattle.std.specs.Prelude.{◌≡◌, ◌==◌, ◌≤◌, length};
ghost use Rattle.std.specs.List.{list_all};
ghost use Rattle.bgp_types.specs.Header.{header_fault, len_in, fault_of_kind};

use crate::fault::HeaderFault;
use byteorder::{BigEndian, ByteOrder};

/// The length of a header in octets: a marker of 16, a length of two, and a type of one.
pub const HEADER: usize = 19;

/// A whole KEEPALIVE, which is a header alone (RFC 4271, section 4.4).
pub const KEEPALIVE_MESSAGE: [u8; 19] = [
    255, 255, 255, 255, 255, 255, 255, 255, 255, 255, 255, 255, 255, 255, 255, 255, 0, 19, 4,
];

/// Returns the length field of a header: the octets of the whole message.
pub fn header_len(octets: &[u8]) -> u16
    requires { 19 ≤ length octets.now }
    ensures { result ≡ len_in octets.now }
{
    BigEndian::read_u16(&octets[16..18])
}

/// Returns the fault of a header with this type and this length, if it has one.
fn fault_of_kind(kind: u8, len: u16) -> Option<HeaderFault>
    ensures { result ≡ fault_of_kind kind len }
{
    if !(19..=4096).contains(&len) {
        return Some(HeaderFault::BadLength(len));
    }
    let has_room = match kind {
        1 => len >= 29,
        2 => len >= 23,
        3 => len >= 21,
        4 => len == 19,
        _ => return Some(HeaderFault::BadType(kind)),
    };
    if has_room {
        None
    } else {
        Some(HeaderFault::BadLength(len))
    }
}

/// Whether a marker is all ones.
fn is_marker(octets: &[u8]) -> bool
    ensures { result ≡ list_all (λ octet. octet == 255) octets.now }
{
    octets.iter().all(|octet| *octet == 0xFF)
}

/// Returns the first fault of a header, if it has one. The marker is checked first, then the length,
/// the type, and the least length of a message of that type. The octets may go on behind the header.
#[tactic(auto, unfolding(crate::specs::Header::header_fault))]
pub fn header_fault(octets: &[u8]) -> Option<HeaderFault>
    requires { 19 ≤ length octets.now }
    ensures { result ≡ header_fault octets.now }
{
    let (marker, _) = octets.split_at(16);
    if !is_marker(marker) {
        return Some(HeaderFault::NotSynchronized);
    }
    fault_of_kind(octets[18], header_len(octets))
}
