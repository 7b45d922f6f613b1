//! What a test says of a run, as JSON.

ghost use Rattle.std.specs.Prelude.{◌≡◌, map, count_by, is_some, IfOk};
ghost use Rattle.serde_json.specs.View.{view};
ghost use Rattle.report_json.specs.Values.{json_line as json_line_lem};
ghost use Rattle.expect_view.specs.Expect.{difference as difference_lem};
ghost use Rattle.expect_json.specs.Verdicts.{held_json, differing_json, verdict_json, verdicts_list, verdicts_json, test_json as test_json_lem};

use expect_view::{Difference, first_difference};
use graft_edge::{NoMemory, Octets};
use lab_report::Lab;
use report_json::{json_line, push_value, put_text};
use serde_json::{Map, Value, put};
use std::alloc::Global;

/// Where the run differs from each expectation, in the order of the input.
fn differences(alloc: Global, lab: &Lab) -> Result<Vec<Option<Difference>>, NoMemory>
    ensures { IfOk result (λ found. found.items ≡ map (difference_lem lab.now) lab.now.input.expects) }
{
    let expects = lab.input.expects.as_slice();
    let mut found = Vec::with_capacity(alloc, expects.len())?;
    for expectation in expects {
        found.push(first_difference(alloc, lab, expectation.as_slice())?)?;
    }
    Ok(found)
}

/// An expectation that holds.
fn held_value(alloc: Global) -> Result<Value, NoMemory>
    ensures { IfOk result (λ v. view v ≡ held_json) }
{
    let mut map = Map::new(alloc);
    put(&mut map, alloc, "got", Value::Null)?;
    put(&mut map, alloc, "key", Value::Null)?;
    put(&mut map, alloc, "ok", Value::from(true))?;
    put(&mut map, alloc, "wanted", Value::Null)?;
    Ok(Value::Object(map))
}

/// An expectation that doesn't.
fn differing_value(alloc: Global, difference: &Difference) -> Result<Value, NoMemory>
    ensures { IfOk result (λ v. view v ≡ differing_json difference.now) }
{
    let mut map = Map::new(alloc);
    put_text(&mut map, alloc, "got", difference.got.as_str())?;
    put_text(&mut map, alloc, "key", difference.key.as_str())?;
    put(&mut map, alloc, "ok", Value::from(false))?;
    put_text(&mut map, alloc, "wanted", difference.wanted.as_str())?;
    Ok(Value::Object(map))
}

/// An expectation, given where the run differs from it.
fn verdict_value(alloc: Global, found: &Option<Difference>) -> Result<Value, NoMemory>
    ensures { IfOk result (λ v. view v ≡ verdict_json found.now) }
{
    match found {
        Some(difference) => differing_value(alloc, difference),
        None => held_value(alloc),
    }
}

/// All expectations, given where the run differs from each.
fn list_value(alloc: Global, all: &[Option<Difference>]) -> Result<Value, NoMemory>
    ensures { IfOk result (λ v. view v ≡ verdicts_list all.now) }
{
    let mut list = Vec::with_capacity(alloc, all.len())?;
    for found in all {
        push_value(&mut list, verdict_value(alloc, found)?)?;
    }
    Ok(Value::Array(list))
}

/// How many expectations the run differs from.
fn failed_in(all: &[Option<Difference>]) -> usize
    ensures { result ≡ count_by is_some all.now }
{
    all.iter().filter(|found| found.is_some()).count()
}

/// All expectations, and how many the run differs from.
fn verdicts_value(alloc: Global, all: &[Option<Difference>]) -> Result<Value, NoMemory>
    ensures { IfOk result (λ v. view v ≡ verdicts_json all.now (count_by is_some all.now)) }
{
    let list = list_value(alloc, all)?;
    let mut map = Map::new(alloc);
    put(&mut map, alloc, "expectations", list)?;
    put(&mut map, alloc, "failed", Value::from(failed_in(all)))?;
    put_text(&mut map, alloc, "job", "test")?;
    put(&mut map, alloc, "version", Value::from(1u32))?;
    Ok(Value::Object(map))
}

/// What a test says of a run, as JSON: for each expectation of the input, in its order, whether it holds, and of one that doesn't the first key
/// under which the run has another value, with the value that is wanted and what the run has in its place; and how many don't hold.
pub fn test_json(alloc: Global, lab: &Lab) -> Result<Octets, NoMemory>
    ensures { IfOk result (λ text. text ≡ json_line_lem (test_json_lem lab.now)) }
{
    let all = differences(alloc, lab)?;
    let value = verdicts_value(alloc, all.as_slice())?;
    json_line(alloc, &value)
}
