//! What a capture is imported as.

use graft_edge::{Items, Octets};

/// Octets that a remote says: whole messages, one behind another, or what is behind its last whole message.
#[derive(Debug, Drop)]
pub struct Said {
    /// The number of the remote's connection.
    pub peer: usize,
    pub octets: Octets,
}

/// A peering, and what its remote says at first.
#[derive(Debug, Drop)]
pub struct ImportedPeering {
    /// The number of its connection.
    pub peer: usize,
    pub remote_as: u32,
    pub remote_address: u32,
    pub local_address: u32,
    /// The remote's BGP Identifier.
    pub remote_id: u32,
    /// The hold time that the remote tells, in seconds.
    pub hold: u16,
    /// The remote's OPEN, and a KEEPALIVE if that is its next message.
    pub opening: Octets,
    /// Whether the home side supports four-octet AS numbers: as its OPEN says, or where that wasn't captured, as the remote's does.
    pub as4: bool,
    /// Whether the remote supports them.
    pub remote_as4: bool,
    /// The hold time that the home side tells, in seconds; 0 where its OPEN wasn't captured.
    pub home_hold: u16,
    /// Whether the home side's OPEN has the capability of IPv4 unicast.
    pub unicast: bool,
}

/// What a capture is imported as.
#[derive(Debug, Drop)]
pub struct Imported {
    /// The AS of the home side: that of its first OPEN, or where none was captured, the least one from 64512 on that no remote
    /// has.
    pub home_as: u32,
    /// The BGP Identifier of that OPEN.
    pub home_id: Option<u32>,
    /// The peerings with other ASes, in the order of their connections.
    pub peerings: Items<ImportedPeering>,
    /// What their remotes say behind their openings, in the order of the capture, in steps of at most 4,096 octets.
    pub steps: Items<Said>,
    /// How many sessions were left out since their remotes are of the home side's own AS.
    pub internal: u64,
    /// How many packets were left out as fragments.
    pub fragments: u64,
    /// How many segments were left out as those of other connections.
    pub others: u64,
}
