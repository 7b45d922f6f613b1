//! The endpoint of a connection: the stream that it sends, how much of it was emitted and acknowledged,
//! what it received of the other stream (RFC 9293, sections 3.4, 3.8 and 3.10.7.4), and how it is
//! handed over.
#![tactic(auto)]

mod ahead;
mod arrival;
mod end;
mod laws;

pub use arrival::{Arrival, SendStop};
pub use end::{End, MOST_BYTES};
pub use laws::{an_endpoint_is_its_state, calls_are_steps, received_are_first_bytes};
pub use tcp_seq::{EndState, Piece, Pieces};
