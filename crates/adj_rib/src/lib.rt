//! The routes that a session heard, by prefix: an Adj-RIB-In (RFC 4271, section 3.2).
#![tactic(auto)]

mod changes;
mod rib;

pub use rib::AdjRib;
