//! Law: what a session reads is one function of what its remote said.
#![tactic(auto)]

mod laws;

pub use laws::stories_read_alike;
