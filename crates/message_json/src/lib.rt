//! Messages of BGP as JSON: what an OPEN offers, which prefixes an UPDATE withdraws and announces and with which attributes, what a NOTIFICATION
//! tells, and what a session finds in octets that it reads.
#![tactic(auto)]

mod attrs;
mod messages;

pub use attrs::write_attrs;
pub use messages::{message_value, prefixes_value, read_value, write_notice};
