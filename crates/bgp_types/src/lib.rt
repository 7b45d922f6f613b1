//! The values of BGP that the whole laboratory uses: prefixes, paths, attributes, routes and messages
//! (RFC 4271, section 4).
#![tactic(auto)]

mod as_number;
mod attrs;
mod fault;
mod header;
pub mod kinds;
mod laws;
mod length;
mod message;
mod path;
mod prefix;
mod rank;
mod shared;
mod table;
mod text;
pub mod types;

pub use as_number::{AS_TRANS, as_size, has_long_as, is_long_as, narrow_as};
pub use attrs::{Aggregator, Attrs, Origin, RawAttr, RawAttrs, Route};
pub use fault::{Expected, FoundAttrs, HeaderFault};
pub use graft_edge::{Items, Name, NoMemory, Octets, PeeringId, RouterId, TryCopy};
pub use header::{HEADER, KEEPALIVE_MESSAGE, header_fault, header_len};
pub use laws::{
    each_prefix_once, equal_is_same, fault_is_writable, printed_address_reads,
    printed_prefix_reads, reads_exactly, reads_once, written_reads,
};
pub use length::{message_len, update_len};
pub use message::{Cap, Caps, Message, Notice, OpenMsg, SessionState, Update};
pub use path::{AsList, AsPath, MOST_ASES, PathPart, holds_as, neighbour, path_len};
pub use prefix::{Prefix, PrefixList};
pub use rank::{From, Rank};
pub use shared::SharedAttrs;
pub use table::{SpareTable, Table, prefix_order};
pub use text::{Address, is_host, is_no_host, read_address, read_prefix};
