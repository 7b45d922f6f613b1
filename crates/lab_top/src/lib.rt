//! The top call of `graftlab`: from the words of a command to its status.
#![tactic(auto)]

mod audit;
mod built;
mod finish;
mod forms;
mod imports;
mod jobs;
mod laws;
mod top;
mod views;

pub use finish::{
    BAD_INPUT, DENIED, DONE, Finish, LIMIT, NO_MEMORY, READ_FAILED, UNSETTLED, USAGE, WRITE_FAILED,
};
pub use laws::{reports_have_their_traces, the_headline_says, what_is_journaled_passes};
pub use top::graft_main;
pub use views::{View, ViewName};
