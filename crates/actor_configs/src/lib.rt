//! What the routers, the far sides and the operator begin with, and which such configurations are those of a laboratory.
#![tactic(auto)]

mod far;
mod router;
mod says;
mod script;

pub use far::FarConfig;
pub use router::{Firsts, NamedPolicy, Policies, RouterConfig};
pub use says::{Say, SayTable, Says};
pub use script::{Rooms, RouterIds, Script, ScriptStep, ScriptSteps};
