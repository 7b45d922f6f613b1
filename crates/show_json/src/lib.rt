//! All that there is at the end of a run, as JSON: one object in one line, with what the text of the same job says.
#![tactic(auto)]

mod faults;
mod routes;
mod sessions;
mod show;
mod tables;
mod untold;

pub use show::show_json;
