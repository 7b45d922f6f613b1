//! Path attributes of an UPDATE, read and written (RFC 4271, sections 4.3 and 6.3), with AS numbers
//! of two octets or of four (RFC 6793).
#![tactic(auto)]

mod fault;
mod laws;
mod merge;
mod number;
mod path;
mod piece;
mod read;
mod said;
mod value;
mod write;

pub use fault::CodecFault;
pub use laws::{fields_read_alike, written_attrs_read};
pub use read::read_attrs;
pub use write::write_attrs;
