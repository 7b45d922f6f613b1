//! Writes the laboratory of a seed: 4 routers, 12 peerings, two faults on each peering, and a script that
//! announces 2,000 prefixes and moves the sessions while more is announced.
#![tactic(auto)]

mod announce;
mod make;
mod numbered;
mod script;
mod tables;

pub use make::make_lab;
