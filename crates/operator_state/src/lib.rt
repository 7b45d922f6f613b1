//! What the operator records: the tasks of a group of its script, each graft, and where each session belongs.
#![tactic(auto)]

mod evacuate;
mod grafts;
mod groups;

pub use evacuate::{Gift, Gifts, give};
pub use grafts::{
    Move, Seat, Slot, end, first_open, first_seats, first_slots, issue, logged, moved, open_graft,
};
pub use groups::{Group, Task, drop_issued, graft_numbers, group_from, has_unissued};
