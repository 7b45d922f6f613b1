//! A journal audited: replayed entry by entry against the world of routers, remotes and the operator, up to the first
//! entry that no run has.
#![tactic(auto)]

mod audit;
mod auditor;
mod entries;
mod laws;
mod step;

pub use audit::{Audit, Why, audit_journal};
pub use auditor::Auditor;
pub use laws::answers_tell_of_runs;
pub use step::Step;
