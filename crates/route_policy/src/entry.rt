//! What a peering gives for a prefix.

use bgp_types::Route;

/// A route that a peering gives for a prefix, as the import policy left it, with the BGP Identifier and
/// the address of the remote.
#[derive(Debug, PartialEq, Eq, Drop)]
pub struct Entry {
    pub route: Route,
    pub identifier: u32,
    pub address: u32,
}
