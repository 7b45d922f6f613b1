//! What is wrong with bytes, and what a session expects of them (RFC 4271, section 6).

use crate::attrs::{Aggregator, Origin, RawAttrs};
use crate::message::SessionState;
use crate::path::AsPath;

/// What is wrong with a header: the marker isn't all ones, or no message has the length or the type
/// that it gives.
#[derive(Clone, Copy, Debug, PartialEq, Eq, Hash)]
pub enum HeaderFault {
    NotSynchronized,
    BadLength(u16),
    BadType(u8),
}

/// What a message is checked against: the session's state, the remote's AS, whether the home side
/// offered four-octet AS numbers, and whether the session uses them.
#[derive(Clone, Copy, Debug, PartialEq, Eq, Hash)]
pub struct Expected {
    pub state: SessionState,
    pub remote_as: u32,
    pub offered: bool,
    pub wide: bool,
}

/// The attributes of an UPDATE, each where it is present.
#[derive(Debug, Drop)]
pub struct FoundAttrs {
    pub origin: Option<Origin>,
    pub path: Option<AsPath>,
    pub next_hop: Option<u32>,
    pub med: Option<u32>,
    pub atomic: bool,
    pub aggregator: Option<Aggregator>,
    pub unknown: RawAttrs,
}
