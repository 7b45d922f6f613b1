//! The routes of a router: what its peerings and the other home routers gave, the best of these for
//! each prefix, and what is to be told (RFC 4271, sections 3.2 and 9.1).
#![tactic(auto)]

mod config;
mod laws;
mod ranks;
mod rib;
mod sources;

pub use config::{InEntry, Numbers, RibConfig};
pub use laws::{choice_among_fewer, marks_one_by_one};
pub use rib::Rib;
pub use route_policy::{Best, Entry, OutView};
