//! Whether all settled runs of an input have one answer, by the input alone.
#![tactic(auto)]

mod announced;
mod evenness;
mod imports;
mod meds;
mod policies;
mod said;
mod sureness;

pub use evenness::even;
pub use sureness::sure;
