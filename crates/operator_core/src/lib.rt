//! The operator of the laboratory: it works through a script of steps, a group at a time. It orders what remotes are to say and which
//! sessions are to move, and keeps the log of grafts.
#![tactic(auto)]

mod operator;
mod progress;

pub use operator::Operator;
