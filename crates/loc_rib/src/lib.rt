//! The routes that a router selected, and the prefixes that it has to decide again: a Loc-RIB (RFC
//! 4271, section 3.2).
#![tactic(auto)]

mod rib;

pub use rib::LocRib;
