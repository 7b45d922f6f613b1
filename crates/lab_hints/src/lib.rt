//! The second line of a refusal: what is wanted where an input is wrong.
#![tactic(auto)]

mod crowd;
mod hints;
mod later;
mod laws;
mod names;
mod place;
mod shape;
mod stray;
mod wanted;

pub use hints::{hint_text, long_hint, name_hint};
pub use laws::each_refusal_has_a_hint;
