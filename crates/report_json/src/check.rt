//! What is said of an accepted input, as JSON.

ghost use Rattle.std.specs.Prelude.{◌≡◌, IfOk};
ghost use Rattle.serde_json.specs.View.{view};
ghost use Rattle.report_json.specs.Check.{sizes_json, check_json as check_json_lem};
ghost use Rattle.report_json.specs.Values.{json_line as json_line_lem};

use crate::values::{json_line, put_text};
use graft_edge::{NoMemory, Octets};
use lab_tables::LabInput;
use serde_json::{Map, Value, put};
use std::alloc::Global;

/// The sizes of an input.
fn sizes_value(alloc: Global, input: &LabInput) -> Result<Value, NoMemory>
    ensures { IfOk result (λ v. view v ≡ sizes_json input.now) }
{
    let peerings = input.peerings.len();
    let mut map = Map::new(alloc);
    put(&mut map, alloc, "peerings", Value::from(peerings))?;
    put(&mut map, alloc, "routers", Value::from(input.routers.len()))?;
    put(&mut map, alloc, "steps", Value::from(input.steps.len()))?;
    Ok(Value::Object(map))
}

/// The sizes of an input, and the outcomes of the two tests.
fn check_value(alloc: Global, input: &LabInput, even: bool, sure: bool) -> Result<Value, NoMemory>
    ensures { IfOk result (λ v. view v ≡ check_json_lem input.now even sure) }
{
    let counts = sizes_value(alloc, input)?;
    let mut map = Map::new(alloc);
    put(&mut map, alloc, "counts", counts)?;
    put(&mut map, alloc, "even", Value::from(even))?;
    put_text(&mut map, alloc, "job", "check")?;
    put(&mut map, alloc, "ok", Value::from(true))?;
    put(&mut map, alloc, "sure", Value::from(sure))?;
    put(&mut map, alloc, "version", Value::from(1u32))?;
    Ok(Value::Object(map))
}

/// What is said of an accepted input, as JSON: how many routers, peerings and steps it has, whether routes of one neighbour AS never differ in
/// MED there, and whether its script alone decides what becomes of its grafts.
pub fn check_json(
    alloc: Global,
    input: &LabInput,
    even: bool,
    sure: bool,
) -> Result<Octets, NoMemory>
    ensures { IfOk result (λ text. text ≡ json_line_lem (check_json_lem input.now even sure)) }
{
    let value = check_value(alloc, input, even, sure)?;
    json_line(alloc, &value)
}
