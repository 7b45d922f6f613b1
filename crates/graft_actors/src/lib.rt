//! The actors of the program in the world of routers: what their items stand for, who may send them to whom, which of
//! them they take, and what an actor does with an item that it can't take.
#![tactic(auto)]

mod known;
mod laws;
mod notes;

pub use known::Known;
pub use laws::{
    a_journal_is_a_run, a_net_is_one_world, actors_have_their_numbers, actors_keep_their_setup,
    acts_are_events, an_entry_is_of_one_event, an_event_is_a_step, far_sides_take_what_comes,
    parts_begin_as_the_first_world, routers_take_what_comes, rows_are_made,
    the_operator_takes_what_comes,
};
pub use notes::{
    note_dropped, note_far, note_far_sent, note_operator, note_operator_sent, note_router,
    note_router_sent,
};
