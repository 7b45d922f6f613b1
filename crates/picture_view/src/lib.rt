//! The picture of a run: where each session was, round by round, and how it moved.
#![tactic(auto)]

mod axes;
mod elements;
mod heads;
mod laws;
mod picture;
mod plan;
mod positions;
mod shapes;

pub use laws::{worked_bow, worked_columns, worked_escape, worked_rows};
pub use picture::picture_text;
