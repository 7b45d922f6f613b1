//! The sessions of a capture as a laboratory has them: peerings, with what their remotes say at first, and steps in which
//! they say the rest.
#![tactic(auto)]

mod heard;
mod home;
mod imported;
mod opened;
mod peerings;
mod sessions;
mod steps;

pub use imported::{Imported, ImportedPeering, Said};
pub use sessions::{ImportStop, import_sessions};
