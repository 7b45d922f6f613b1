//! Runs as captures: what a tap at each remote's side of its link sees.
#![tactic(auto)]

mod capture;
mod ends;
mod laws;
mod tap;
mod timed;

pub use capture::capture_octets;
pub use laws::one_capture;
