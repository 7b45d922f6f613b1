//! How a walk ends.

use bgp_types::{PeeringId, Prefix, RouterId};

/// How a packet that goes from router to router ends.
#[derive(Clone, Copy, Debug, PartialEq, Eq)]
pub enum Walk {
    /// It leaves the home network at this router, over this peering, by this prefix.
    Leaves(RouterId, PeeringId, Prefix),
    /// It is for a network of this router, by this prefix.
    Local(RouterId, Prefix),
    /// This router has no prefix that covers the address.
    NoRoute(RouterId),
    /// It reaches this router again.
    Loop(RouterId),
}
