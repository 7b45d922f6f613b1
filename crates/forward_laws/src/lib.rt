//! The laws of forwarding: where packets go in a home network whose routers have nothing left to decide or to tell.
#![tactic(auto)]

mod laws;

pub use laws::{
    named_routers_are_there, packets_leave_where_sessions_are, solved_networks_forward,
    solved_walks,
};
