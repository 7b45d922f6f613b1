//! The actors of the laboratory that an input describes, each as it begins.
#![tactic(auto)]

mod actors;

pub use actors::actors_of;
