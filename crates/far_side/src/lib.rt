//! A far side: a scripted remote behind a link that loses, repeats and holds back segments and lets them stray, by
//! plan.
#![tactic(auto)]

mod emit;
mod far;
mod fields;
mod laws;
mod link;
mod pass;
mod take;
mod turn;

pub use far::Far;
pub use laws::segments_leave_by_their_fates;
