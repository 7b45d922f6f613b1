//! Laws: what each round of a laboratory does, from one mark to the next.
#![tactic(auto)]

mod laws;

pub use laws::rounds_are_real;
