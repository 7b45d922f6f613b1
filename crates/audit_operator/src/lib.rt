//! The operator, whose events are decided one by one, in whatever order a journal has them: the steps of the current
//! group that weren't ordered, and the record of each graft.
#![tactic(auto)]

mod events;
mod operator;
mod tasks;

pub use operator::AuditedOperator;
