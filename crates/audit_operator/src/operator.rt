//! The operator.

ghost use Rattle.std.specs.Prelude.{◌≡◌, ◌↔◌, IsTrue, IfOk};
ghost use Rattle.graft_model.specs.First.{first_operator};
ghost use Rattle.actor_configs.specs.Scripts.{IsScriptOf, IsWorkable};
ghost use Rattle.audit_operator.specs.Decides.{NothingIsLeft};
ghost use Rattle.audit_operator.specs.Parts.{operator_part, OperatorStands};

use actor_configs::Script;
use graft_actors::Known;
use graft_edge::{Items, NoMemory};
use operator_state::{
    Seat, Slot, Task, first_open, first_seats, first_slots, give, graft_numbers, group_from,
};
use std::alloc::Global;

/// The operator: where it is in the script, the tasks of the current group that weren't ordered yet, and what it
/// records of each graft and of each peering.
#[derive(Drop)]
pub struct AuditedOperator {
    pub(crate) alloc: Global,
    /// The laboratory, which is only for proofs.
    pub(crate) known: Known,
    pub(crate) script: Script,
    /// By index of the script: the number that the first graft there has or would have.
    pub(crate) numbers: Items<u32>,
    /// The number of the current group, from 0, and where the steps after it begin.
    pub(crate) group: usize,
    pub(crate) next: usize,
    /// The tasks of the group that weren't ordered, in their order.
    pub(crate) tasks: Vec<Task>,
    /// The slots, by number of the script's grafts, from 1.
    pub(crate) slots: Vec<Slot>,
    /// The seats, by peering.
    pub(crate) seats: Vec<Seat>,
}

impl AuditedOperator {
    /// Returns an operator that has ordered nothing yet. The first group of its script is the current one.
    pub fn new(alloc: Global, known: Known, script: Script) -> Result<AuditedOperator, NoMemory>
        requires script { IsScriptOf known.setup script }
        requires workable { IsWorkable script }
        ensures setup { IfOk result (λ operator. operator.known.setup ≡ known.setup) }
        ensures first { IfOk result (λ operator. operator_part operator ≡ first_operator known.setup) }
        ensures sound { IfOk result OperatorStands }
    {
        let steps = script.steps.as_slice();
        let peerings = script.starts.len();
        let numbers = graft_numbers(alloc, steps, peerings as u32)?;
        let mut slots = first_slots(alloc, steps, peerings)?;
        let seats = first_seats(alloc, script.starts.as_slice())?;
        let first = group_from(alloc, &script, numbers.as_slice(), &seats, 0)?;
        give(&mut slots, first.gifts.as_slice());
        Ok(AuditedOperator {
            alloc,
            known,
            script,
            numbers,
            group: 0,
            next: first.next,
            tasks: first.tasks,
            slots,
            seats,
        })
    }

    /// Returns whether the operator has nothing left to do in the current group: each task was ordered, and each graft
    /// has ended.
    pub fn is_at_rest(&self) -> bool
        requires { OperatorStands self.now }
        ensures { IsTrue result ↔ NothingIsLeft self.now }
    {
        self.tasks.is_empty() && first_open(self.slots.as_slice()).is_none()
    }
}
