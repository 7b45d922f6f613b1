//! Routing policies (RFC 4271, sections 9.1.1 and 9.1.3), the ranks of routes, and what a router's
//! decisions and advertisements depend on.
#![tactic(auto)]

mod best;
mod entry;
mod laws;
mod path;
mod policy;
mod rank;
mod rule;
mod tell;

pub use best::Best;
pub use entry::Entry;
pub use laws::{told_paths_avoid_the_remote_as, worked_candidates, worked_telling};
pub use path::prepend;
pub use policy::Policy;
pub use rank::{PREFERENCE, own_rank, router_rank, session_rank};
pub use rule::{PrefixRange, Rule, Rules};
pub use tell::{OutView, is_kept_back, tell_in, tell_out};
