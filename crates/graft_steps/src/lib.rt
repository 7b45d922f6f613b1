//! The steps of a graft: the move of a live BGP session from the home router that holds it, the source,
//! to another one, the target. The operator orders it. The source refuses it, or freezes the session
//! and sends it away. The target sends it back, or takes it and reports so once its routes are heard.
//! The source reports how the graft ended. This crate has these steps with their refusals, the items
//! that routers, far sides and the operator send one another, the operator's log, and what an actor
//! still has to do.
//!
//! No call except `copy` allocates memory.
#![tactic(auto)]

mod admission;
mod item;
mod laws;
mod log;
mod order;
mod refusal;
mod rest;

pub use admission::admit;
pub use item::Item;
pub use laws::{source_refusals, target_refusals};
pub use log::{GraftEntry, GraftLog, GraftStage};
pub use order::{Away, Frozen, GraftIds, Landed, Ordered};
pub use refusal::{Outcome, Refusal};
pub use rest::{FarRest, OperatorRest, Pending, RouterRest, pending_order};
