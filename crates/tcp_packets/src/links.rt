//! What stands behind the header of a link.

ghost use Rattle.std.specs.Prelude.{◌≡◌, ◌+◌, ◌≤◌, option_map};
ghost use Rattle.tcp_packets.specs.Links.{type_at as type_at_lem, behind_type as behind_type_lem, is_tagged as is_tagged_lem};
ghost use Rattle.tcp_packets.specs.Links.{is_family as is_family_lem, behind_link as behind_link_lem};

use pcap_form::{ByteOrder, LinkType, half_at, word_at};

/// The number of IPv4 among the types of Ethernet.
const IPV4: u16 = 0x0800;

/// The number of a tag (IEEE 802.1Q) among them.
const TAG: u16 = 0x8100;

/// The number of IPv4 among the families of addresses.
const IPV4_FAMILY: u32 = 2;

/// Returns whether a header of `header` octets is there, and the type at `place` in it is that of IPv4.
fn is_type_at(octets: &[u8], place: usize, header: usize) -> bool
    requires { place + 2 ≤ header }
    ensures { result ≡ type_at_lem octets.now place header }
{
    octets.len() >= header && half_at(ByteOrder::Big, octets, place) == IPV4
}

/// Returns whether the header of BSD's loopback names the family of IPv4, in either order of octets.
fn is_family(octets: &[u8]) -> bool
    ensures { result ≡ is_family_lem octets.now }
{
    octets.len() >= 4
        && (word_at(ByteOrder::Big, octets, 0) == IPV4_FAMILY
            || word_at(ByteOrder::Little, octets, 0) == IPV4_FAMILY)
}

/// Returns whether octets begin with an Ethernet header that has a tag.
fn is_tagged(octets: &[u8]) -> bool
    ensures { result ≡ is_tagged_lem octets.now }
{
    octets.len() >= 14 && half_at(ByteOrder::Big, octets, 12) == TAG
}

/// Returns the octets behind a header, if the type at `place` in it is that of IPv4.
fn behind_type(octets: &[u8], place: usize, header: usize) -> Option<&[u8]>
    requires { place + 2 ≤ header }
    ensures { option_map (λ packet. packet.now) result ≡ behind_type_lem octets.now place header }
{
    if !is_type_at(octets, place, header) {
        return None;
    }
    Some(&octets[header..])
}

/// Returns the octets behind the header of the link, if that header says that they are IPv4's. Where there is no such
/// header, all may be.
pub(crate) fn behind_link(link: LinkType, octets: &[u8]) -> Option<&[u8]>
    ensures { option_map (λ packet. packet.now) result ≡ behind_link_lem link octets.now }
{
    match link {
        LinkType::Raw | LinkType::Ipv4 => Some(octets),
        LinkType::Null if is_family(octets) => Some(&octets[4..]),
        LinkType::Ethernet if is_tagged(octets) => behind_type(octets, 16, 18),
        LinkType::Ethernet => behind_type(octets, 12, 14),
        LinkType::LinuxCooked => behind_type(octets, 14, 16),
        LinkType::LinuxCooked2 => behind_type(octets, 0, 20),
        LinkType::Null | LinkType::Other(_) => None,
    }
}
