//! Which expectations hold of a run, as JSON.
#![tactic(auto)]

mod laws;
mod verdicts;

pub use laws::worked_verdicts;
pub use verdicts::test_json;
