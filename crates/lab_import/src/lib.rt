//! A capture of BGP sessions becomes a laboratory.
#![tactic(auto)]

mod capture;
mod keys;
mod limits;
mod same;
mod steps;
mod tables;
mod text;

pub use capture::{CaptureFault, MOST_CAPTURE, Unimported, fault_line, import_capture};
