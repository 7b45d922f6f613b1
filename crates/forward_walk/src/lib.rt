//! Where packets go in the home network, by the routers' tables: each router uses the longest of its
//! prefixes that covers the address (RFC 1812, section 5.2.4.3).
#![tactic(auto)]

mod entry;
mod forwarder;
mod laws;
mod walk;

pub use entry::{ForwardEntry, ForwardTable, ForwardTables};
pub use forwarder::Forwarder;
pub use laws::walks_end;
pub use walk::Walk;
