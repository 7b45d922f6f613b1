//! What is seen of the actors of a laboratory at the end of a run, and the `Lab` that is made of it.
#![tactic(auto)]

mod found;
mod seen;
mod tables;
mod views;

pub use seen::lab_of;
pub use tables::table_of;
pub use views::{far_view, view_of};
