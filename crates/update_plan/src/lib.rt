//! What a router sends in a turn of what is due to a receiver: on a session, one UPDATE carries as many
//! prefixes with the same attributes as fit in 4,096 octets (RFC 4271, sections 4.1, 4.3 and 9.2).
#![tactic(auto)]

mod batch;
mod code;
mod gather;
mod grouping;
mod laws;
mod passing;
mod path;
mod updates;
mod writable;

pub use batch::Batch;
pub use grouping::groups;
pub use laws::{next_update_changes, next_update_is_one_way, rest_is_planned};
pub use updates::plan;
