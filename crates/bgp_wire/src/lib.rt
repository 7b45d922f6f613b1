//! Reads BGP messages from whole frames, and writes them (RFC 4271, sections 4 and 6), with AS numbers
//! of two octets or of four (RFC 6793).
#![tactic(auto)]

mod fault;
mod laws;
mod open;
mod prefix;
mod read;
mod set;
mod update;
mod write;

pub use attr_codec::CodecFault;
pub use laws::{read_message_is_writable, written_message_reads};
pub use open::{FOUR_OCTET_AS, as_said};
pub use read::{header_notice, read_message};
pub use write::write_message;
