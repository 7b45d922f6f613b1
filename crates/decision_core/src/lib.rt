//! The choice between the routes to one prefix (RFC 4271, section 9.1.2).
#![tactic(auto)]

mod choice;

pub use choice::{best, is_nearer, leads, order_matters_only_among_equals};
