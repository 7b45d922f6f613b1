//! A scripted remote: what it says, and its end of the connection.
#![tactic(auto)]

mod remote;

pub use remote::Remote;
