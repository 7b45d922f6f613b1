//! The gate that each actor passes at the start of its turn.

/// A gate that each actor passes at the start of each of its turns. The program's own gate lets all
/// pass at once; a test's gate may count the turns, or block an actor.
pub trait Gate: Sync {
    /// Lets the actor of this number begin its turn. Called once at the start of each turn.
    fn pass(&self, actor: usize);
}

/// A gate that never blocks.
#[derive(Clone, Copy, Debug, PartialEq, Eq, Hash)]
pub struct FreeGate;

impl Gate for FreeGate {
    fn pass(&self, _actor: usize) {}
}
