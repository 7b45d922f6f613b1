//! The laboratory as a net of actors: routers, far sides and the operator as one type, the
//! channels between them, the rounds that they make, and what is seen of them at a mark.
#![tactic(auto)]

mod edges;
mod laws;
mod looks;
mod node;
mod running_lab;

pub use laws::the_way_is_a_run;
pub use node::Node;
pub use running_lab::RunningLab;
