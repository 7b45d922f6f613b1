//! Packets that are read from a capture, and packets that are written.

ghost use Rattle.std.specs.Prelude.{◌≡◌};

use crate::link::LinkType;
use graft_edge::{Items, Octets};
use std::marker::Model;

/// A packet of a capture: its octets in the file, as far as they were captured, and the type of its link.
#[derive(Debug, Drop)]
pub struct Packet<'a> {
    link: LinkType,
    octets: &'a [u8],
}

/// The packets of a capture, in the order of the file.
pub type Packets<'a> = Items<Packet<'a>>;

impl<'a> Model for Packet<'a> {
    ghost use Rattle.pcap_form.specs.Blocks.{Captured};

    ghost Value = { Captured };

    ghost view = { λ packet. record { link = packet.link; octets = packet.octets.now } };
}

impl<'a> Packet<'a> {
    /// Returns a packet of these octets.
    pub(crate) fn new(link: LinkType, octets: &'a [u8]) -> Packet<'a>
        ensures { result ≡ record { link = link; octets = octets.now } }
    {
        Packet { link, octets }
    }

    /// Returns the type of the packet's link.
    pub fn link(&self) -> LinkType
        ensures { result ≡ self.now.link }
    {
        self.link
    }

    /// Returns the packet's octets.
    pub fn octets(&self) -> &'a [u8]
        ensures { result.now ≡ self.now.octets }
    {
        self.octets
    }
}

/// A packet that is to be written, which begins with its IPv4 header.
#[derive(Debug, Drop)]
pub struct CapturedPacket {
    /// When it was captured, in seconds since 1970.
    pub seconds: u32,
    /// The microseconds of that second.
    pub microseconds: u32,
    pub octets: Octets,
}
