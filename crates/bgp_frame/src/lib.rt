//! Finds the messages of a stream of bytes, however it is cut into pieces (RFC 4271, sections 4.1 and
//! 6.1).
#![tactic(auto)]

mod framer;
mod front;
mod laws;

pub use bgp_types::HeaderFault;
pub use framer::{Frame, FrameStop, Framer};
pub use front::{FrontFrame, first_frame};
pub use laws::{any_pieces, fault_stays};
