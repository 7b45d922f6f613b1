//! Puts the bytes of a stream in order. Its segments may arrive in any order, overlap and repeat.
#![tactic(auto)]

mod laws;
mod piece;
mod reasm;

pub use laws::{bytes_stand_at_their_offsets, same_offsets_same_bytes};
pub use piece::{WINDOW, part, remove_front};
pub use reasm::{Reasm, in_window};
pub use tcp_seq::{Piece, Pieces};
