//! What the actors of a laboratory begin with, by its input.
#![tactic(auto)]

mod budget;
mod counted;
mod far;
mod laws;
mod router;
mod says;
mod script;
mod sessions;

pub use budget::{Budget, budgets_of};
pub use counted::counts;
pub use far::far_config;
pub use laws::{accepted_faults_are_short, budgets_are_sound, each_group_has_a_budget};
pub use router::router_config;
pub use script::operator_script;
