//! A moving session and its plain parts: which parts a capsule has, and the capsule that has given parts.
#![tactic(auto)]

mod check;
mod from;
mod offer;
mod pieces;
mod retell;
mod stop;
mod story;
mod to;

pub use capsule_bytes::CapsuleParts;
pub use from::from_parts;
pub use stop::PartsStop;
pub use to::to_parts;
