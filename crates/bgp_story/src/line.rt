//! The lines of a story.

use bgp_types::{Message, Octets};

/// A line of a story: a message that the home side put, octets that it got at once, or a round of one
/// second, by its number, in which the hold timer ran.
#[derive(Debug, Drop)]
pub enum Line {
    Put(Message),
    Got(Octets),
    Tick(u32),
}
