//! What remotes said, as JSON.

ghost use Rattle.std.specs.Prelude.{◌≡◌, option_and_then, option_copied, slice_get, IfOk};
ghost use Rattle.serde_json.specs.View.{view};
ghost use Rattle.lab_report.specs.Summary.{announced_in_step};
ghost use Rattle.report_json.specs.Values.{count_or_null};
ghost use Rattle.view_json.specs.Events.{withdrawn_in_step, octets_in_step, prefixes_in, step_object, about_step};

use graft_edge::NoMemory;
use lab_tables::{LabInput, Step};
use message_json::prefixes_value;
use serde_json::{Map, Value, put};
use std::alloc::Global;

/// The prefixes that a step announces.
fn announced_value(alloc: Global, step: Option<&Step>) -> Result<Value, NoMemory>
    ensures { IfOk result (λ v. view v ≡ prefixes_in announced_in_step (option_copied step.entry)) }
{
    match step {
        Some(Step::Announce { prefixes, .. }) => prefixes_value(alloc, prefixes),
        _ => prefixes_value(alloc, &[]),
    }
}

/// The prefixes that a step withdraws.
fn withdrawn_value(alloc: Global, step: Option<&Step>) -> Result<Value, NoMemory>
    ensures { IfOk result (λ v. view v ≡ prefixes_in withdrawn_in_step (option_copied step.entry)) }
{
    match step {
        Some(Step::Withdraw { prefixes, .. }) => prefixes_value(alloc, prefixes),
        _ => prefixes_value(alloc, &[]),
    }
}

/// How many octets a raw step says, or null.
fn octets_value(step: Option<&Step>) -> Value
    ensures { view result ≡ count_or_null (option_and_then octets_in_step (option_copied step.entry)) }
{
    match step {
        Some(Step::Raw { bytes, .. }) => Value::from(bytes.len()),
        _ => Value::Null,
    }
}

/// A step that a remote says, by its parts.
fn step_object(
    alloc: Global,
    announce: Value,
    octets: Value,
    step: u32,
    withdraw: Value,
) -> Result<Value, NoMemory>
    ensures { IfOk result (λ v. view v ≡ step_object (view announce) (view octets) step (view withdraw)) }
{
    let mut map = Map::new(alloc);
    put(&mut map, alloc, "announce", announce)?;
    put(&mut map, alloc, "octets", octets)?;
    put(&mut map, alloc, "step", Value::from(step))?;
    put(&mut map, alloc, "withdraw", withdraw)?;
    Ok(Value::Object(map))
}

/// The step of this number, from 0.
fn step_at(input: &LabInput, step: u32) -> Option<&Step>
    ensures { option_copied result ≡ slice_get input.now.steps step }
{
    input.steps.get(step as usize)
}

/// A step that a remote says.
pub(crate) fn about_step(alloc: Global, input: &LabInput, step: u32) -> Result<Value, NoMemory>
    ensures { IfOk result (λ v. view v ≡ about_step input.now step) }
{
    let said = step_at(input, step);
    let announce = announced_value(alloc, said)?;
    let withdraw = withdrawn_value(alloc, said)?;
    let octets = octets_value(said);
    step_object(alloc, announce, octets, step, withdraw)
}
