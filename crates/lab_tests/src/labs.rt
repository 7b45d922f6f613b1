//! Inputs as texts, and their runs.

ghost use Rattle.std.specs.Prelude.{◌≤◌, IfOk};
ghost use Rattle.node_configs.specs.Accepted.{IsAccepted};

use graft_edge::Gate;
use lab_input::read_lab;
use lab_report::Lab;
use lab_run::run_lab;
use lab_tables::LabInput;
use std::alloc::Global;
use std::test::Fail;
use std::thread::Threads;

/// The input that a text is.
fn input_of(alloc: Global, text: &str) -> Result<LabInput, Fail>
    ensures { IfOk result IsAccepted }
{
    let input = read_lab(alloc, text.as_bytes())?;
    Ok(input)
}

/// The run of the input that a text is.
pub(crate) fn run<R: Threads + Sync + AllocGlobal, G: Gate>(
    rt: &R,
    text: &str,
    workers: usize,
    gate: &G,
) -> Result<Lab, Fail>
    requires { (1 ≤ workers) × (workers ≤ 8) }
{
    let input = input_of(rt.alloc(), text)?;
    let lab = run_lab(rt, rt.alloc(), input, workers, gate)?;
    Ok(lab)
}
