//! How much two phases take from a channel, and what exact clocks imply.

ghost use Rattle.ring_net.specs.Phases.{DrainsInTwo};
ghost use Rattle.ring_net.specs.Deeds.{ClockedRise};

use crate::actor::Actor;

/// In two phases, with any levellings and calls at a mark between them, at least the lesser of 256 and
/// the number of items that a channel held before them is taken from it.
pub fn two_phases_drain<A: Actor>()
    ensures { DrainsInTwo A.part A.makes A.took A.turned }
{}

/// The clocks of an actor's events ascend, and each is above the stamp of what its event takes.
pub fn clocks_rise<A: Actor>()
    ensures { ClockedRise A.Item }
{}
