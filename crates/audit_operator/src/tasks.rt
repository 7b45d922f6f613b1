//! The tasks that an order may name, and those that hold another one up.

ghost use Rattle.std.specs.Prelude.{ℕ, ◌≡◌, ◌<◌, ◌↔◌, length, Some, IsTrue, IfSome, IfNone, slice_get};
ghost use Rattle.operator_state.specs.Slots.{move_of, slot_at};
ghost use Rattle.audit_operator.specs.Tasks.{IsBehind, IsNamed, moves_in, number_for, says_in};

use crate::operator::AuditedOperator;
use actor_configs::ScriptStep;
use graft_edge::PeeringId;
use operator_state::{Move, Task, moved};

impl AuditedOperator {
    /// Returns the number by which an order names a task.
    fn number_of(&self, task: Task) -> u32
        ensures { result ≡ number_for (slice_get self.now.script.steps task.step) task }
    {
        match self.script.steps.get(task.step as usize) {
            Some(ScriptStep::Evacuate { .. }) => task.graft,
            _ => 0,
        }
    }

    /// Returns the task at an index.
    pub(crate) fn task(&self, index: usize) -> Task
        requires { index < length self.now.tasks.items }
        ensures { slice_get self.now.tasks.items index ≡ Some result }
    {
        self.tasks[index]
    }

    /// Returns whether a task is of this step, and an order names it by this number.
    fn is_named(&self, task: Task, step: u32, number: u32) -> bool
        ensures { IsTrue result ↔ ((task.step ≡ step) × (number_for (slice_get self.now.script.steps task.step) task ≡ number)) }
    {
        task.step == step && self.number_of(task) == number
    }

    /// Returns the index of the task that an order names, if it waits.
    pub(crate) fn find_task(&self, step: u32, number: u32) -> Option<usize>
        ensures some { IfSome result (λ index. (task : _) × IsNamed self.now step number index task) }
        ensures none { IfNone result ((index : ℕ) (task : _) → ¬ IsNamed self.now step number index task) }
    {
        self.tasks
            .iter()
            .position(|task| self.is_named(*task, step, number))
    }

    /// Returns the peering whose remote a task has say something, if it is such a task.
    pub(crate) fn says(&self, task: Task) -> Option<PeeringId>
        ensures { result ≡ says_in self.now task }
    {
        match self.script.steps.get(task.step as usize)? {
            ScriptStep::Say { peering } => Some(*peering),
            _ => None,
        }
    }

    /// Returns what the graft of a task moves, if it is a task of a graft.
    pub(crate) fn moves(&self, task: Task) -> Option<Move>
        ensures { result ≡ move_of (slot_at self.now.slots.items task.graft) }
    {
        let index = (task.graft as usize).checked_sub(1)?;
        moved(self.slots.get(index)?)
    }

    /// Returns the peering whose session a task moves, if it is a task of a graft.
    fn moved_peering(&self, task: Task) -> Option<PeeringId>
        ensures { result ≡ moves_in self.now task }
    {
        Some(self.moves(task)?.peering)
    }

    /// Returns whether the remote of a peering is to say something before the task at an index.
    pub(crate) fn is_say_before(&self, index: usize, peering: PeeringId) -> bool
        ensures { IsTrue result ↔ IsBehind (says_in self.now) self.now index peering }
    {
        self.tasks
            .iter()
            .take(index)
            .any(|task| self.says(*task) == Some(peering))
    }

    /// Returns whether the session of a peering is to move before the task at an index.
    pub(crate) fn is_graft_before(&self, index: usize, peering: PeeringId) -> bool
        ensures { IsTrue result ↔ IsBehind (moves_in self.now) self.now index peering }
    {
        self.tasks
            .iter()
            .take(index)
            .any(|task| self.moved_peering(*task) == Some(peering))
    }
}
