//! What a capsule is spelled from.

use bgp_types::{Items, Name, Octets, PeeringId, Prefix};
use tcp_seq::EndState;

/// A line of a session's story.
#[derive(Debug, Drop)]
pub enum PartLine {
    /// The message that the session put, as it was written.
    Put(Octets),
    /// The bytes that it got.
    Got(Octets),
    /// The round in which it took its turn.
    Tick(u32),
}

/// The lines of a story.
pub type PartLines = Items<PartLine>;

/// The table of routes that a late change is of.
#[derive(Clone, Copy, Debug, PartialEq, Eq, PartialOrd, Ord, Hash)]
pub enum Side {
    /// The routes that were heard, the Adj-RIB-In.
    Heard,
    /// The routes that were told, the Adj-RIB-Out.
    Told,
}

/// A change that the session's router hasn't taken yet.
#[derive(Debug, Drop)]
pub struct PartChange {
    pub side: Side,
    pub prefix: Prefix,
    /// The attributes of the route as they are written, or `None` if the prefix has no route any more.
    pub attrs: Option<Octets>,
}

/// Changes in ascending order of side and prefix.
pub type PartChanges = Items<PartChange>;

/// A session that moves from one router to another, as plain values.
#[derive(Debug, Drop)]
pub struct CapsuleParts {
    pub peering: PeeringId,
    pub remote_as: u32,
    pub home_as: u32,
    /// The BGP Identifier in the OPEN that the session put.
    pub identifier: u32,
    pub remote_address: u32,
    pub local_address: u32,
    /// The hold time that the session offered, in seconds.
    pub home_hold: u16,
    /// Whether the session offers AS numbers of four octets (RFC 6793).
    pub offered: bool,
    /// Whether its OPEN has the capability of multiprotocol extensions for IPv4 unicast (RFC 4760,
    /// section 8).
    pub unicast: bool,
    /// The names of the import and the export policy.
    pub import: Option<Name>,
    pub export: Option<Name>,
    pub end: EndState,
    /// The bytes of a message that didn't arrive whole.
    pub held: Octets,
    pub story: PartLines,
    pub late: PartChanges,
}
