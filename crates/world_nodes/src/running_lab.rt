//! The net of a running laboratory.

ghost use Rattle.std.specs.Prelude.{◌≡◌, ◌≤◌};
ghost use Rattle.ring_net.specs.Shown.{edge_list};
ghost use Rattle.graft_model.specs.Setups.{Setup};
ghost use Rattle.world_nodes.specs.Edges.{AreEdgesOf, HasCounts};

use crate::edges::edges_of;
use crate::looks::{left_up_to, on_its_way, stuck_up_to};
use crate::node::Node;
use graft_edge::{Gate, NoMemory, PeeringId};
use graft_steps::Pending;
use ring_net::{Actors, Net, Parts};
use settled_check::{first_pending, quiet_is_found};
use std::alloc::Global;
use std::thread::Threads;
use world_runs::worlds_are_on_the_way;

/// A running laboratory: its actors in a net, with a mark after each round.
#[derive(Drop)]
pub struct RunningLab {
    net: Net<Node>,
    routers: u16,
    peerings: u16,
    edges: Vec<(u16, u16)>,
    ghost few: { (routers ≤ 256) × (peerings ≤ 256) },
    ghost same: { edge_list net ≡ edges.items },
    ghost its_own: { (setup : Setup) → HasCounts setup (routers, peerings) → AreEdgesOf setup edges.items },
}

impl RunningLab {
    ghost use Rattle.std.specs.Prelude.{ℕ, ◌≡◌, ◌≤◌, ◌+◌, ◌↔◌, List, false, None, length, IfOk, OnOk};
    ghost use Rattle.std.specs.List.{AllByRecursion};
    ghost use Rattle.ring_net.specs.Phases.{CountsAll};
    ghost use Rattle.ring_net.specs.Left.{HasJournals, items_left};
    ghost use Rattle.graft_model.specs.Setups.{Setup, IsSetup};
    ghost use Rattle.graft_model.specs.Parts.{World};
    ghost use Rattle.graft_model.specs.Quiet.{Quiet};
    ghost use Rattle.operator_state.specs.Holds.{IsHeldUp};
    ghost use Rattle.world_runs.specs.Labs.{AreFirstActors};
    ghost use Rattle.world_nodes.specs.Nodes.{Works, own};
    ghost use Rattle.world_nodes.specs.Edges.{AreEdgesOf, HasCounts};
    ghost use Rattle.world_nodes.specs.Ways.{IsFirstStand, Round, Pause};
    ghost use Rattle.world_nodes.specs.RunningLabs.{stand, counts, AllWork};
    ghost use Rattle.world_nodes.specs.Looks.{IsWorldAt, IsLowest, IsPending, IsStuckIn, as_numbers};

    /// Returns a laboratory at its beginning, with these actors: the first `routers` are routers, the next `peerings`
    /// are far sides, and the last one is the operator. There must be at most 256 routers and at most 256 peerings.
    pub fn begin(
        alloc: Global,
        actors: Actors<Node>,
        routers: u16,
        peerings: u16,
    ) -> Result<RunningLab, NoMemory>
        requires few { (routers ≤ 256) × (peerings ≤ 256) }
        requires size { length actors ≡ routers + peerings + 1 }
        requires works { AllByRecursion Works actors }
        ensures begins { IfOk result
            (λ running. (setup : Setup) → HasCounts setup (routers, peerings) → AreFirstActors own setup actors → IsFirstStand setup (stand running)) }
        ensures actors { IfOk result (λ running. (stand running).view.actors ≡ actors) }
        ensures works { IfOk result AllWork }
        ensures counts { IfOk result (λ running. counts running ≡ (routers, peerings)) }
    {
        let edges = edges_of(alloc, routers, peerings)?;
        let net = Net::build(alloc, actors, edges.as_slice())?;
        Ok(RunningLab {
            net,
            routers,
            peerings,
            edges,
        })
    }

    /// Returns the number of actors.
    fn count(&self) -> usize
        ensures { result ≡ (counts self.now).0 + (counts self.now).1 + 1 }
    {
        usize::from(self.routers) + usize::from(self.peerings) + 1
    }

    /// Makes one round, in 1 to 8 threads: each actor takes the items that come to it and makes its turn, and a mark
    /// follows. If memory runs out, nothing is known of the actors from then on.
    pub fn round<R: Threads + Sync, G: Gate>(
        &mut self,
        rt: &R,
        workers: usize,
        gate: &G,
    ) -> Result<(), NoMemory>
        requires workers { (1 ≤ workers) × (workers ≤ 8) }
        requires works { AllWork self.old }
        ensures round { OnOk result (Round (stand self.old) (stand self.new)) }
        ensures works { OnOk result (AllWork self.new) }
        ensures counts { counts self.new ≡ counts self.old }
    {
        self.net.phase(rt, workers, gate)?;
        self.net.mark()
    }

    /// Begins the next group of the script. The world must be quiet. Returns false, and no actor does anything, exactly
    /// if the current group has a step that wasn't issued or a graft without an outcome, or is the last one. If memory
    /// runs out, nothing is known of the actors from then on.
    pub fn go(&mut self) -> Result<bool, NoMemory>
        requires works { AllWork self.old }
        ensures pause { IfOk result (Pause ((counts self.old).0 + (counts self.old).1) (stand self.old) (stand self.new)) }
        ensures held { IfOk result (λ answer. (setup : Setup) (w : World) → HasCounts setup (counts self.old) → IsWorldAt setup (stand self.old) w
            → (answer ≡ false) ↔ IsHeldUp setup w.operator) }
        ensures works { OnOk result (AllWork self.new) }
        ensures counts { counts self.new ≡ counts self.old }
    {
        self.net.level();
        let last = self.count() - 1;
        self.net.between(last)
    }

    /// Returns the lowest peering whose session is stuck, with the length that its stream would have with its next
    /// message, above 1,044,480 bytes. `None` if no session is stuck.
    pub fn stuck(&self) -> Result<Option<(PeeringId, usize)>, NoMemory>
        requires works { AllWork self.now }
        ensures lowest { IfOk result (λ answer. (setup : Setup) (w : World) → HasCounts setup (counts self.now) → IsWorldAt setup (stand self.now) w
            → IsLowest (IsStuckIn setup w) (as_numbers answer)) }
    {
        stuck_up_to(&self.net, self.count())
    }

    /// Returns the first thing that is left to do, or `None` if the world is quiet.
    pub fn pending(&self) -> Option<Pending>
        requires works { AllWork self.now }
        ensures first { (setup : Setup) (w : World) → HasCounts setup (counts self.now)
            → IsSetup setup → IsWorldAt setup (stand self.now) w → IsPending setup w result }
        ensures quiet { (setup : Setup) (w : World) → HasCounts setup (counts self.now) → IsSetup setup → IsWorldAt setup (stand self.now) w
            → (result ≡ None) ↔ Quiet setup w }
    {
        worlds_are_on_the_way();
        quiet_is_found();
        first_pending(
            left_up_to(&self.net, self.count()),
            on_its_way(&self.net, self.edges.as_slice()),
        )
    }

    /// Returns the number of events. The count saturates at 2^64 - 1.
    pub fn events(&self) -> u64
        ensures { CountsAll (stand self.now).view result }
    {
        self.net.events()
    }

    /// Consumes the laboratory, and returns the actors, their journals, the marks, and the items that are still on
    /// their way. Returns `NoMemory` after a call that failed, or if memory runs out; the laboratory is gone then.
    pub fn finish(self) -> Result<Parts<Node>, NoMemory>
        ensures actors { IfOk result (λ parts. parts.actors ≡ (stand self).view.actors) }
        ensures journals { IfOk result (λ parts. HasJournals (stand self).view parts.journals) }
        ensures marks { IfOk result (λ parts. parts.marks ≡ (stand self).marks) }
        ensures left { IfOk result (λ parts. (edges : List (ℕ × ℕ)) × (parts.left ≡ items_left (stand self).view edges)
            × ((setup : Setup) → HasCounts setup (counts self) → AreEdgesOf setup edges)) }
    {
        self.net.finish()
    }
}
