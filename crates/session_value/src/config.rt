//! The configuration of a session.

use bgp_types::{Name, PeeringId};
use tcp_seq::Seq;

/// The configuration with which a session begins, and which it keeps when it moves to another router.
#[derive(Debug, Drop)]
pub struct SessionConfig {
    pub peering: PeeringId,
    /// The AS number of the home network, at least 1.
    pub home_as: u32,
    /// The BGP Identifier in the OPEN that the session puts: that of the router at which it starts.
    pub identifier: u32,
    /// The AS number of the remote, at least 1.
    pub remote_as: u32,
    /// Whether the session offers AS numbers of four octets (RFC 6793).
    pub offered: bool,
    /// Whether its OPEN has the capability of multiprotocol extensions for IPv4 unicast (RFC 4760,
    /// section 8).
    pub unicast: bool,
    /// The hold time that the session offers, in seconds: 0 for none, or at least 3 (RFC 4271, section 4.2).
    pub home_hold: u16,
    pub remote_address: u32,
    /// The session's own address, which is the next hop of the routes that it tells (RFC 4271, section
    /// 5.1.3).
    pub local_address: u32,
    /// The sequence number of the first byte that the session sends, and of the first that it receives.
    pub send_first: Seq,
    pub receive_first: Seq,
    /// The names of the import and the export policy, which each router resolves by itself.
    pub import: Option<Name>,
    pub export: Option<Name>,
}
