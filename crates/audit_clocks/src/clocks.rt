//! The clocks of actors, and the rules by which events move them.

ghost use Rattle.std.specs.Prelude.{◌≡◌, ◌↔◌, ◌<◌, ◌+◌, max, fold, take, replicate, length, IsTrue, IfOk, IfSome, OnOk};
ghost use Rattle.item_channels.specs.Channels.{IsSquare};

use crate::stamps::{next_from, put, take_next};
use graft_edge::NoMemory;
use item_channels::{Inbox, empty_inboxes};
use std::alloc::Global;

/// The clock of each actor, and the stamps of what is on its way from each to each other, in the order of the
/// items. The stamp of an item is the clock of the event that sent it.
#[derive(Drop)]
pub struct Clocks {
    clocks: Vec<u64>,
    stamps: Vec<Inbox<u64>>,
    ghost as_many: { length stamps.items ≡ length clocks.items },
    ghost square: { IsSquare (length stamps.items) stamps.items },
}

/// Returns whether a clock is one above another.
fn is_one_above(clock: u64, other: u64) -> bool
    ensures { IsTrue result ↔ (clock ≡ other + 1) }
{
    other < clock && clock - other == 1
}

/// Returns the greatest of some clocks, or 0 if there are none.
fn greatest(clocks: &[u64]) -> u64
    ensures { result ≡ fold max 0 clocks.now }
{
    let mut greatest = 0;
    for clock in clocks {
        greatest = greatest.max(*clock);
    }
    greatest
}

impl Clocks {
    ghost use Rattle.audit_clocks.specs.Stamps.{next_stamp};
    ghost use Rattle.audit_clocks.specs.Clocks.{actors_of, clock_of, clocks_of, stamps_of, IsNew, HasPassed, IsLevel};

    /// Returns the clocks of `actors` actors: all are 0, and nothing is on its way.
    pub fn new(alloc: Global, actors: usize) -> Result<Clocks, NoMemory>
        ensures { IfOk result (IsNew actors) }
    {
        Ok(Clocks {
            clocks: vec![in alloc; 0; actors]?,
            stamps: empty_inboxes(alloc, actors)?,
        })
    }

    /// Returns whether this is the clock of an actor's next event: one above the greater of the actor's clock and
    /// the stamp of what the event takes from a sender, if it takes anything.
    pub fn is_next(&self, actor: usize, from: Option<usize>, clock: u64) -> bool
        requires actor { actor < actors_of self.now }
        requires from { IfSome from (λ n. n < actors_of self.now) }
        ensures { IsTrue result ↔ (clock ≡ max (clock_of self.now actor) (next_stamp (stamps_of self.now) from actor) + 1) }
    {
        let stamp = next_from(&self.stamps, from, actor);
        is_one_above(clock, self.clocks[actor].max(stamp))
    }

    /// Passes an event of an actor: takes out the stamp of what the event takes from a sender, puts its clock
    /// behind the stamps of what is on its way to a receiver, and sets the actor's clock to it.
    pub fn pass(
        &mut self,
        actor: usize,
        from: Option<usize>,
        to: Option<usize>,
        clock: u64,
    ) -> Result<(), NoMemory>
        requires actor { actor < actors_of self.old }
        requires from { IfSome from (λ n. n < actors_of self.old) }
        requires to { IfSome to (λ n. n < actors_of self.old) }
        ensures { OnOk result (HasPassed self.old actor from to clock self.new) }
    {
        take_next(&mut self.stamps, from, actor);
        put(&mut self.stamps, actor, to, clock)?;
        self.clocks[actor] = clock;
        Ok(())
    }

    /// Returns whether this is one above the greatest of all clocks.
    pub fn is_above_all(&self, clock: u64) -> bool
        ensures { IsTrue result ↔ (clock ≡ fold max 0 (clocks_of self.now) + 1) }
    {
        is_one_above(clock, greatest(&self.clocks))
    }

    /// Sets all clocks to this one.
    pub fn level(&mut self, clock: u64)
        ensures { IsLevel self.old clock self.new }
    {
        self.clocks.fill(clock);
    }
}
