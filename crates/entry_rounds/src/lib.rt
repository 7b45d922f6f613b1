//! In which round of a run each entry of its merged journal stands.
#![tactic(auto)]

mod laws;
mod rounds;

pub use laws::worked_rounds;
pub use rounds::entry_rounds;
