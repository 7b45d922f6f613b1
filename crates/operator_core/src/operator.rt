//! The operator.

ghost use Rattle.std.specs.Prelude.{◌≡◌, ◌↔◌, ℕ, true, false, Some, OnOk, IfOk, slice_get};
ghost use Rattle.std.specs.List.{AllByRecursion-prop};
ghost use Rattle.std.proofs.Props.{props};
ghost use Rattle.ring_net.specs.Posts.{TookItem, Moved, Pauses, SameEdges};
ghost use Rattle.session_value.specs.Sessions.{SessionValue};
ghost use Rattle.graft_actors.specs.Acts.{acts};
ghost use Rattle.operator_state.specs.Keeps.{Rises-prop};
ghost use Rattle.operator_core.specs.Progresses.{ProgressInvariant};

use crate::progress::Progress;
use actor_configs::Script;
use graft_actors::Known;
use graft_edge::NoMemory;
use graft_model::emptied_routers_give_by_plan;
use graft_steps::{GraftLog, Item, OperatorRest};
use ring_net::Post;
use std::alloc::Global;

/// The operator: it works through the steps of a script, a group at a time, and keeps the log of grafts.
#[derive(Drop)]
pub struct Operator {
    progress: Progress,
    ghost sound: { ProgressInvariant progress } by { Prim.hlevel (props, AllByRecursion-prop, Rises-prop) },
}

impl Operator {
    ghost use Rattle.graft_model.specs.First.{first_world};
    ghost use Rattle.graft_model.specs.Setups.{EvacuateStep, group_of};
    ghost use Rattle.graft_model.specs.Evacuations.{GivesByPlan};
    ghost use Rattle.graft_actors.specs.Actors.{OperatorIs, Operator as TheOperator};
    ghost use Rattle.settled_check.specs.Rests.{IsOperatorRest};
    ghost use Rattle.actor_configs.specs.Scripts.{IsScriptOf, IsWorkable};
    ghost use Rattle.operator_state.specs.Grafts.{log_of};
    ghost use Rattle.operator_state.specs.Holds.{IsHeldUp};
    ghost use Rattle.operator_core.specs.Operators.{operator_setup, operator_part, own_part, took_by_operator, OperatorTurned, Paused};

    /// Returns an operator that has issued nothing yet. The first group of its script is the current one.
    pub fn new(alloc: Global, known: Known, script: Script) -> Result<Operator, NoMemory>
        requires script { IsScriptOf known.setup script }
        requires workable { IsWorkable script }
        ensures { IfOk result (λ operator. own_part operator
            ≡ record { setup = known.setup; name = TheOperator; part = OperatorIs (first_world known.setup).operator }) }
    {
        let progress = Progress::new(alloc, known, script)?;
        Ok(Operator { progress })
    }

    /// Notes the report of a graft that was ordered and hasn't ended, from a router. Any other item is dropped, with a
    /// journal entry of kind 0.
    pub fn take<C: Drop>(
        &mut self,
        from: usize,
        item: Item<C>,
        post: &mut Post<Item<C>>,
    ) -> Result<(), NoMemory>
        ensures took { OnOk result
            ((session : C → SessionValue) → TookItem own_part (acts session) took_by_operator from item self.old post.old self.new post.new) }
        ensures edges { SameEdges post.old post.new }
    {
        self.progress.take(from, item, post)
    }

    /// Orders whatever of the current group may be ordered, in the order of its steps.
    pub fn turn<C: Drop>(&mut self, post: &mut Post<Item<C>>) -> Result<(), NoMemory>
        ensures turned { OnOk result ((session : C → SessionValue) → Moved own_part (acts session) OperatorTurned self.old post.old self.new post.new) }
        ensures edges { SameEdges post.old post.new }
    {
        self.progress.turn(post)
    }

    /// Begins the next group: its evacuate steps give the sessions of their routers to the others. The world must be
    /// quiet. Returns false, with nothing changed, exactly if something of the current group wasn't ordered, or a graft
    /// of it has no outcome, or there is no further group.
    pub fn go<C: Drop>(&mut self, post: &mut Post<Item<C>>) -> Result<bool, NoMemory>
        ensures paused { IfOk result
            (λ answer. (session : C → SessionValue) → Pauses own_part (acts session) Paused self.old post.old self.new post.new answer) }
        ensures held { IfOk result (λ answer. (answer ≡ false) ↔ IsHeldUp (operator_setup self.old) (operator_part self.old)) }
        // Each evacuate step of the new group has given the sessions of its router to the others by plan.
        ensures emptied { IfOk result (λ answer. answer ≡ true → (step router : ℕ) → slice_get (operator_setup self.old).steps step ≡ Some (EvacuateStep router)
            → group_of (operator_setup self.old) step ≡ (operator_part self.new).group
            → GivesByPlan (operator_setup self.old) (operator_part self.old) (operator_part self.new) step router) }
        ensures edges { SameEdges post.old post.new }
    {
        emptied_routers_give_by_plan();
        self.progress.go(post)
    }

    /// Begins the next group at a mark, as `go` does.
    pub fn between<C: Drop>(&mut self, post: &mut Post<Item<C>>) -> Result<bool, NoMemory>
        ensures paused { IfOk result
            (λ answer. (session : C → SessionValue) → Pauses own_part (acts session) Paused self.old post.old self.new post.new answer) }
        ensures edges { SameEdges post.old post.new }
    {
        self.go(post)
    }

    /// Returns the grafts of the script's graft steps, and those that its evacuate steps made as their groups began, in
    /// the order of their numbers: the routers that they were ordered at, their targets, and how far they are.
    ///
    /// # Errors
    ///
    /// `NoMemory` if memory runs out.
    pub fn log(&self) -> Result<GraftLog, NoMemory>
        ensures { IfOk result (λ log. log ≡ log_of (operator_setup self.now) (operator_part self.now)) }
    {
        self.progress.log()
    }

    /// Returns what is left to do.
    pub fn rest(&self) -> OperatorRest
        ensures { IsOperatorRest (operator_setup self.now) (operator_part self.now) result }
    {
        self.progress.outstanding()
    }
}
