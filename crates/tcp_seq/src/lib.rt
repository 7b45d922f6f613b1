//! TCP's sequence numbers and acceptance rules, the segment that links carry, and the state of an
//! endpoint that is handed over. For contracts it has an endpoint over whole numbers, which the 32-bit
//! rules stand for (RFC 9293, sections 3.4, 3.8 and 3.10.7.4).
#![tactic(auto)]

mod laws;
mod rules;
mod segment;
mod seq;
mod state;

pub use laws::{
    a_segment_has_its_offsets, a_segment_leaves_one_endpoint, acceptance_by_offsets,
    acknowledgement_by_offsets, an_offset_keeps_its_byte, connection_carries_streams,
    emitted_slices_may_be_emitted, ends_stay_linked, numbers_by_offsets, received_is_greatest,
};
pub use rules::{AckKind, acceptable, ack_kind};
pub use segment::{Segment, Way};
pub use seq::Seq;
pub use state::{EndState, Piece, Pieces};
