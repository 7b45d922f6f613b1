//! The streams of BGP sessions in a capture, put in order.
#![tactic(auto)]

mod directed;
mod flows;
mod laws;
mod peers;
mod pieces;
mod stop;
mod streams;

pub use directed::Peer;
pub use laws::one_reading;
pub use stop::{Hole, StreamStop};
pub use streams::{Flow, Streams, captured_streams};
