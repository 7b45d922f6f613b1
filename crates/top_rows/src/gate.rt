//! A gate that counts.

use graft_edge::Gate;
use lab_report::Lab;
use std::array;
use std::sync::atomic::{AtomicU64, Ordering};

/// A gate that counts how often each actor passes. It has room for the actors of a drill: four routers, twelve far
/// sides and the operator.
#[derive(Drop)]
pub struct CountingGate {
    passes: [AtomicU64; 17],
}

impl CountingGate {
    pub fn new() -> CountingGate {
        CountingGate {
            passes: array::from_fn(|_| AtomicU64::new(0)),
        }
    }

    /// Returns whether each of `actors` actors passed in each of `rounds` rounds, and no other actor did.
    fn all_passed(&self, actors: usize, rounds: u64) -> bool {
        for (actor, passes) in self.passes.iter().enumerate() {
            let due = if actor < actors { rounds } else { 0 };
            if passes.load(Ordering::SeqCst) != due {
                return false;
            }
        }
        actors <= self.passes.len()
    }

    /// Returns the gate's verdict on a run, whose actors are its routers, its far sides and the operator.
    pub fn verdict(&self, lab: &Lab) -> &'static str {
        let actors = lab
            .tables
            .len()
            .saturating_add(lab.far.len())
            .saturating_add(1);
        let mut rounds = 0u64;
        for made in &lab.rounds {
            rounds = rounds.saturating_add(u64::from(*made));
        }
        if self.all_passed(actors, rounds) {
            "each actor passed once in each round"
        } else {
            "an actor passed more or less often than there were rounds"
        }
    }
}

impl Gate for CountingGate {
    fn pass(&self, actor: usize) {
        if let Some(count) = self.passes.get(actor) {
            count.fetch_add(1, Ordering::SeqCst);
        }
    }
}
