//! The choice between the routes to one prefix, kept in groups by neighbour AS, so that a change of one
//! rank looks through only its own group and, if its neighbour AS changes, its old one (RFC 4271,
//! section 9.1.2.2).
#![tactic(auto)]

mod group;
mod group_set;
mod groups;
mod laws;
mod ranks;

pub use bgp_types::{From, NoMemory, PeeringId, Rank, RouterId};
pub use group_set::GroupSet;
pub use laws::{champions_decide, choice_by_sources};
