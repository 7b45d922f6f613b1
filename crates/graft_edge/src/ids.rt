//! Numbers of routers and peerings.

/// A home router: its index in the input, counted from 0.
#[derive(Clone, Copy, Debug, PartialEq, Eq, PartialOrd, Ord, Hash)]
pub struct RouterId(pub u8);

/// A peering of the home network with a remote: its index in the input, counted from 0.
#[derive(Clone, Copy, Debug, PartialEq, Eq, PartialOrd, Ord, Hash)]
pub struct PeeringId(pub u8);
