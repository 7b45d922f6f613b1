//! What a run was expected to come to: which expectations of its input hold, and what the others wanted and got.
#![tactic(auto)]

mod laws;
mod values;
mod verdict;
mod whole;

pub use laws::{all_hold_where_none_fails, worked_expectations};
pub use values::{key_name, push_got, push_wanted};
pub use verdict::{Difference, first_difference};
pub use whole::{TestResult, all_hold, test_status, tested};
