//! The tables of a router whose events are decided one by one: its routes, what is due to be told, and what is to be
//! told on each session.
#![tactic(auto)]

mod due;
mod entries;
mod events;
mod pending;
mod put;
mod sets;
mod tables;

pub use pending::Pending;
pub use tables::Tables;
