//! The model's laboratory that an input describes, and what its steps say.
#![tactic(auto)]

mod laws;
mod peerings;
mod says;

pub use laws::{accepted_evacuations_are_alone, accepted_is_a_setup, accepted_is_in_range};
pub use peerings::{is_wide, keepalive_interval_of};
pub use says::said_by;
