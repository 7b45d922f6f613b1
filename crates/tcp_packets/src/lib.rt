//! Segments of TCP over IPv4 in packets: read from those of a capture, and written.
#![tactic(auto)]

mod checksum;
mod fields;
mod laws;
mod links;
mod read;
mod socket;
mod write;

pub use laws::{a_packet_worked_by_hand, checksums_are_right, what_is_written_is_read};
pub use read::{CapturedSegment, LeftOut, read_packet};
pub use socket::Socket;
pub use write::write_packet;
