//! The report of a run.

ghost use Rattle.std.specs.Prelude.{IfOk, string_bytes};
ghost use Rattle.lab_report.specs.Traces.{IsReport};

use crate::lab::Lab;
use crate::texts::{push_end, push_log, push_peerings, push_routers};
use crate::traces::push_traces;
use graft_edge::NoMemory;
use std::alloc::Global;

/// The report of a run: how it ended, each router's best routes, the place and tables of each peering's session, how each graft ended,
/// and where packets go to the addresses of the input.
pub fn report(alloc: Global, lab: &Lab) -> Result<String, NoMemory>
    ensures { IfOk result (λ text. IsReport lab.now (string_bytes text)) }
{
    let mut text = String::new(alloc);
    push_end(&mut text, &lab.input, lab.end)?;
    push_routers(&mut text, &lab.input, lab.tables.as_slice())?;
    push_peerings(
        &mut text,
        &lab.input,
        lab.sessions.as_slice(),
        lab.placement.as_slice(),
    )?;
    push_log(&mut text, &lab.input, lab.log.as_slice())?;
    push_traces(&mut text, alloc, lab)?;
    Ok(text)
}
