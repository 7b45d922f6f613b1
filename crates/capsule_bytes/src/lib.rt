//! A moving session as octets: how the parts of a capsule are written, and how they are read.
#![tactic(auto)]

mod cursor;
mod laws;
mod lists;
mod name;
mod parts;
mod read;
mod stop;
mod write;

pub use laws::{a_capsule_has_one_spelling, a_capsule_worked_by_hand, faults_exclude_one_another};
pub use parts::{CapsuleParts, PartChange, PartChanges, PartLine, PartLines, Side};
pub use read::read_capsule;
pub use stop::CapsuleStop;
pub use write::write_capsule;
