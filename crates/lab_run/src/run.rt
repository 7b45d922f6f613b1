//! The run of an input.

ghost use Rattle.std.specs.Prelude.{ℕ, ◌≡◌, ◌≤◌, ◌+◌, ◌++◌, ◌∷◌, [], List, IfOk, OnOk};
ghost use Rattle.graft_model.specs.Setups.{Setup, IsSetup};
ghost use Rattle.world_nodes.specs.Edges.{HasCounts};
ghost use Rattle.world_nodes.specs.RunningLabs.{stand, counts, AllWork};
ghost use Rattle.std.specs.List.{AllByRecursion};
ghost use Rattle.node_configs.specs.Budgets.{IsSoundBudget};
ghost use Rattle.lab_run.specs.Stories.{RoundNames, GroupGoes, GroupAnswers, PassAnswers, RunGoes, verdict_of};

use crate::end::{Verdict, decide_at_mark};
use graft_edge::{Gate, Items, NoMemory};
use lab_report::RunEnd;
use node_configs::Budget;
use std::thread::Threads;
use world_nodes::RunningLab;

/// How a group ended: quiet, or by a limit, and how many rounds it made.
#[derive(Drop)]
pub(crate) struct GroupEnd {
    pub limit: Option<RunEnd>,
    pub rounds: u32,
}

/// Makes a round, which is the one of this number in its group, and tells what its mark names.
fn run_round<R: Threads + Sync, G: Gate>(
    rt: &R,
    running: &mut RunningLab,
    budget: Budget,
    step: u32,
    rounds: u32,
    workers: usize,
    gate: &G,
) -> Result<Verdict, NoMemory>
    requires workers { (1 ≤ workers) × (workers ≤ 8) }
    requires works { AllWork running.old }
    requires sound { budget.least ≤ budget.rounds }
    ensures names { IfOk result (λ verdict. (setup : Setup) → IsSetup setup → HasCounts setup (counts running.old)
        → RoundNames setup budget step rounds (stand running.old) (stand running.new) verdict) }
    ensures works { OnOk result (AllWork running.new) }
    ensures counts { counts running.new ≡ counts running.old }
{
    running.round(rt, workers, gate)?;
    decide_at_mark(running, budget, step, rounds)
}

/// Runs rounds until the world is quiet or a limit is met.
pub(crate) fn run_group<R: Threads + Sync, G: Gate>(
    rt: &R,
    running: &mut RunningLab,
    budget: Budget,
    step: u32,
    workers: usize,
    gate: &G,
) -> Result<GroupEnd, NoMemory>
    requires workers { (1 ≤ workers) × (workers ≤ 8) }
    requires works { AllWork running.old }
    requires sound { budget.least ≤ budget.rounds }
    ensures goes { IfOk result (λ end. (setup : Setup) → IsSetup setup → HasCounts setup (counts running.old)
        → GroupGoes setup budget step (stand running.old) end.rounds (verdict_of end.limit) (stand running.new)) }
    ensures works { OnOk result (AllWork running.new) }
    ensures counts { counts running.new ≡ counts running.old }
{
    for made in 0..budget.rounds {
        match run_round(rt, running, budget, step, made + 1, workers, gate)? {
            Verdict::GoesOn => {}
            Verdict::IsQuiet => {
                return Ok(GroupEnd {
                    limit: None,
                    rounds: made + 1,
                });
            }
            Verdict::Ends(end) => {
                return Ok(GroupEnd {
                    limit: Some(end),
                    rounds: made + 1,
                });
            }
        }
    }
    // Not reached: the last round of a budget names the end of the group, or of the run.
    Err(NoMemory)
}

/// Begins the next group, or tells that the run is settled.
fn pass(running: &mut RunningLab) -> Result<Option<RunEnd>, NoMemory>
    requires works { AllWork running.old }
    ensures passes { IfOk result
        (λ end. (setup : Setup) → HasCounts setup (counts running.old) → PassAnswers setup (stand running.old) (stand running.new) end) }
    ensures works { OnOk result (AllWork running.new) }
    ensures counts { counts running.new ≡ counts running.old }
{
    if running.go()? {
        Ok(None)
    } else {
        Ok(Some(RunEnd::Settled))
    }
}

/// Runs one group, and begins the next one where it comes to its end. It answers how the run ends, if it does, and adds the rounds that the group made.
fn run_one<R: Threads + Sync, G: Gate>(
    rt: &R,
    running: &mut RunningLab,
    budget: Budget,
    step: u32,
    made: &mut Items<u32>,
    workers: usize,
    gate: &G,
) -> Result<Option<RunEnd>, NoMemory>
    requires workers { (1 ≤ workers) × (workers ≤ 8) }
    requires works { AllWork running.old }
    requires sound { budget.least ≤ budget.rounds }
    ensures goes { IfOk result (λ end. (setup : Setup) → IsSetup setup → HasCounts setup (counts running.old)
        → (rounds : ℕ) × (made.new ≡ made.old ++ rounds ∷ []) × GroupAnswers setup budget step (stand running.old) rounds end (stand running.new)) }
    ensures works { OnOk result (AllWork running.new) }
    ensures counts { counts running.new ≡ counts running.old }
{
    let end = run_group(rt, running, budget, step, workers, gate)?;
    made.push(end.rounds)?;
    match end.limit {
        Some(limit) => Ok(Some(limit)),
        None => pass(running),
    }
}

/// The number of a settle, from 1, where it is one of 32 bits.
fn number(index: usize) -> Result<u32, NoMemory>
    ensures { IfOk result (λ n. n ≡ index + 1) }
{
    if index < 4_294_967_295 {
        Ok(index as u32 + 1)
    } else {
        Err(NoMemory)
    }
}

/// Runs the groups of a script, one behind the other, and adds the rounds that each made.
pub(crate) fn run_groups<R: Threads + Sync, G: Gate>(
    rt: &R,
    running: &mut RunningLab,
    budgets: &[Budget],
    made: &mut Items<u32>,
    workers: usize,
    gate: &G,
) -> Result<RunEnd, NoMemory>
    requires workers { (1 ≤ workers) × (workers ≤ 8) }
    requires works { AllWork running.old }
    requires sound { AllByRecursion IsSoundBudget budgets.now }
    requires none { made.old ≡ [] }
    ensures goes { IfOk result (λ end. (setup : Setup) → IsSetup setup → HasCounts setup (counts running.old)
        → RunGoes setup (stand running.old) budgets.now made.new end (stand running.new)) }
    ensures counts { counts running.new ≡ counts running.old }
{
    for index in 0..budgets.len() {
        let step = number(index)?;
        if let Some(end) = run_one(rt, running, budgets[index], step, made, workers, gate)? {
            return Ok(end);
        }
    }
    // Not reached: behind the last group no other one begins.
    Err(NoMemory)
}
