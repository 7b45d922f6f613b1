//! The story of a session, message by message, each line with its round and with the router that held the session.
#![tactic(auto)]

mod laws;
mod lines;
mod moments;
mod reading;
mod whole;

pub use laws::worked_story;
pub use lines::begins;
pub use moments::{Moment, Moments, adds_to};
pub use reading::open_put;
pub use whole::{expected_first, lines_of, story_text};
