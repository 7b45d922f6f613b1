//! How long each group of a script may run.

ghost use Rattle.std.specs.Prelude.{◌≡◌, ◌++◌, IfOk, OnOk};
ghost use Rattle.std.specs.List.{flat_map};
ghost use Rattle.node_configs.specs.Budgets.{usual_rounds as usual_rounds_lem, budget_of, ends_itself as ends_itself_lem, added_budget, budgets_in};

use graft_edge::{Items, NoMemory};
use lab_tables::{LabInput, Step};
use std::alloc::Global;

/// The most rounds that a settle may make, and the least that it makes.
#[derive(Clone, Copy, Debug)]
pub struct Budget {
    pub rounds: u32,
    pub least: u32,
}

/// Returns the most rounds of a settle that names no number: 2,048, and 8 for each planned fault.
fn usual_rounds(input: &LabInput) -> Result<u32, NoMemory>
    ensures { IfOk result (λ rounds. rounds ≡ usual_rounds_lem input.now) }
{
    let extra = (input.faults.len() as u64).checked_mul(8).ok_or(NoMemory)?;
    let rounds = extra.checked_add(2048).ok_or(NoMemory)?;
    if rounds > u64::from(u32::MAX) {
        return Err(NoMemory);
    }
    Ok(rounds as u32)
}

/// Adds the budget of a step, if it is a settle.
fn push_budget(budgets: &mut Items<Budget>, usual: u32, step: &Step) -> Result<(), NoMemory>
    ensures { OnOk result (budgets.new ≡ budgets.old ++ budget_of usual step.now) }
{
    match step {
        Step::Settle { rounds, least } => budgets.push(Budget {
            rounds: rounds.unwrap_or(usual),
            least: *least,
        }),
        _ => Ok(()),
    }
}

/// Returns the budgets of the settles of a script.
fn step_budgets(alloc: Global, usual: u32, steps: &[Step]) -> Result<Items<Budget>, NoMemory>
    ensures { IfOk result (λ budgets. budgets ≡ flat_map (budget_of usual) steps.now) }
{
    let mut budgets = Items::new(alloc);
    for step in steps {
        push_budget(&mut budgets, usual, step)?;
    }
    Ok(budgets)
}

/// Returns whether the last step of a script ends a group.
fn ends_itself(steps: &[Step]) -> bool
    ensures { result ≡ ends_itself_lem steps.now }
{
    match steps.last() {
        Some(step) => step.is_settle(),
        None => false,
    }
}

/// Adds the budget of the settle that is added after a last step of another kind.
fn push_added(budgets: &mut Items<Budget>, usual: u32, steps: &[Step]) -> Result<(), NoMemory>
    ensures { OnOk result (budgets.new ≡ budgets.old ++ added_budget usual (ends_itself_lem steps.now)) }
{
    if ends_itself(steps) {
        return Ok(());
    }
    budgets.push(Budget {
        rounds: usual,
        least: 0,
    })
}

/// Returns the budget of each settle of an input, in their order, with that of an added one last. A settle that names
/// no rounds has 2,048, and 8 for each planned fault. Returns `NoMemory` if these pass 32 bits, which those of no
/// accepted input do.
pub fn budgets_of(alloc: Global, input: &LabInput) -> Result<Items<Budget>, NoMemory>
    ensures { IfOk result (λ budgets. budgets ≡ budgets_in input.now) }
{
    let usual = usual_rounds(input)?;
    let mut budgets = step_budgets(alloc, usual, &input.steps)?;
    push_added(&mut budgets, usual, &input.steps)?;
    Ok(budgets)
}
