//! The run of an input.

ghost use Rattle.std.specs.Prelude.{◌≡◌, ◌≤◌, IfOk};
ghost use Rattle.world_nodes.specs.RunningLabs.{stand, counts, AllWork};
ghost use Rattle.world_nodes.specs.Edges.{HasCounts};
ghost use Rattle.lab_setup.specs.Setups.{setup_of};
ghost use Rattle.node_configs.specs.Accepted.{IsAccepted};
ghost use Rattle.lab_run.specs.Runs.{BeginsFresh, RanLab};

use crate::laws::labs_tell_of_runs;
use crate::run::run_groups;
use graft_edge::{Gate, Items, NoMemory};
use lab_actors::actors_of;
use lab_report::Lab;
use lab_seen::lab_of;
use lab_tables::LabInput;
use node_configs::budgets_of;
use std::alloc::Global;
use std::thread::Threads;
use world_nodes::RunningLab;

/// The net of the laboratory that an input describes, at its beginning.
fn begin(alloc: Global, input: &LabInput) -> Result<RunningLab, NoMemory>
    requires { IsAccepted input.now }
    ensures begins { IfOk result (λ running. BeginsFresh (setup_of input.now) input.now.faults (stand running)) }
    ensures works { IfOk result AllWork }
    ensures counts { IfOk result (λ running. HasCounts (setup_of input.now) (counts running)) }
{
    let actors = actors_of(alloc, input)?;
    let routers = input.routers.len() as u16;
    let peerings = input.peerings.len() as u16;
    RunningLab::begin(alloc, actors, routers, peerings)
}

/// Runs the laboratory of an input by 1 to 8 workers, until nothing is left to do after the last group of its script, or a limit or the budget
/// of a group is met. Each actor passes the gate before each of its turns. The input is one that was accepted. The lab tells of one run: the
/// clocks of its journal follow what each event takes; from mark to mark one chain of worlds leads from the first world to the last one, which
/// is what the lab shows; and what is claimed of sessions on their way holds along the journal, and along the rounds one after another. Where
/// eight rounds behind a mark have no event, nothing was left to do at it.
pub fn run_lab<R: Threads + Sync, G: Gate>(
    rt: &R,
    alloc: Global,
    input: LabInput,
    workers: usize,
    gate: &G,
) -> Result<Lab, NoMemory>
    requires accepted { IsAccepted input }
    requires workers { (1 ≤ workers) × (workers ≤ 8) }
    ensures input { IfOk result (λ lab. lab.input ≡ input) }
    ensures ran { IfOk result RanLab }
{
    labs_tell_of_runs();
    let budgets = budgets_of(alloc, &input)?;
    let mut running = begin(alloc, &input)?;
    let mut rounds = Items::new(alloc);
    let end = run_groups(
        rt,
        &mut running,
        budgets.as_slice(),
        &mut rounds,
        workers,
        gate,
    )?;
    lab_of(alloc, input, end, running.finish()?, rounds)
}
