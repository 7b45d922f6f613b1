//! Runs the laboratory of an input: its actors in a net, round by round and group by group, until nothing is left to do or a limit is met, and what is seen of
//! the run.
#![tactic(auto)]

mod end;
mod lab;
mod laws;
mod run;

pub use lab::run_lab;
