//! The types of links, by their numbers in captures.

ghost use Rattle.std.specs.Prelude.{◌≡◌};
ghost use Rattle.pcap_form.specs.Numbers.{link_type};

/// What a packet's octets begin with, by the link that it was captured on.
#[derive(Clone, Copy, Debug, PartialEq, Eq, Hash)]
pub enum LinkType {
    /// The loopback of BSD: a protocol family of four octets.
    Null,
    Ethernet,
    /// An IPv4 or IPv6 packet.
    Raw,
    /// Linux "cooked" capture, the first form.
    LinuxCooked,
    /// An IPv4 packet.
    Ipv4,
    /// Linux "cooked" capture, the second form.
    LinuxCooked2,
    /// Any other link.
    Other(u16),
}

impl LinkType {
    /// Returns the type of link that has this number.
    #[tactic(auto, unfolding(crate::specs::Numbers::link_type))]
    pub(crate) fn from_number(number: u16) -> LinkType
        ensures { result ≡ link_type number }
    {
        match number {
            0 => LinkType::Null,
            1 => LinkType::Ethernet,
            12 | 101 => LinkType::Raw,
            113 => LinkType::LinuxCooked,
            228 => LinkType::Ipv4,
            276 => LinkType::LinuxCooked2,
            _ => LinkType::Other(number),
        }
    }
}
