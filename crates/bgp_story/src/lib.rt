//! The story of a BGP session: what the home side put, what it got, and the rounds that passed, in
//! order, and which stories are legal (RFC 4271, sections 6 and 8.2.2).
#![tactic(auto)]

mod header;
mod laws;
mod line;
mod story;

pub use laws::{
    closed_is_the_end, got_in_frames, legal_is_allowed, notifications_have_causes, octets_grow,
    open_is_in_range, opens_once, state_by_lines, tables_grow, updates_are_one_way,
    updates_change_what_was_told, width_and_hold_stay, worked_stories_are_legal,
};
pub use line::Line;
pub use story::{Story, after};
