//! Grafts with their outcomes, as JSON.

ghost use Rattle.std.specs.Prelude.{◌≡◌, IfOk};
ghost use Rattle.serde_json.specs.View.{view};
ghost use Rattle.report_json.specs.Run.{reason_text, detail_json, refusal_json, stage_word, stage_refusal, source_json, graft_json, grafts_json};

use crate::values::{push_value, put_text};
use graft_edge::{NoMemory, RouterId};
use graft_steps::{GraftEntry, GraftStage, Outcome, Refusal};
use lab_report::{Lab, peering_name, router_name, state_name};
use lab_tables::LabInput;
use serde_json::{Map, Value, put};
use std::alloc::Global;

/// The name of a refusal.
fn reason_of(refusal: &Refusal) -> &'static str
    ensures { result.now ≡ reason_text refusal.now }
{
    match refusal {
        Refusal::SameRouter => "SameRouter",
        Refusal::NotEstablished(_) => "NotEstablished",
        Refusal::HoldTooShort(_) => "HoldTooShort",
        Refusal::RouterFull(_) => "RouterFull",
        Refusal::PolicyMissing(_) => "PolicyMissing",
        Refusal::NoTarget => "NoTarget",
    }
}

/// The state, the hold time, the number of places or the policy of a refusal.
fn detail_value(alloc: Global, refusal: &Refusal) -> Result<Value, NoMemory>
    ensures { IfOk result (λ v. view v ≡ detail_json refusal.now) }
{
    match refusal {
        Refusal::SameRouter | Refusal::NoTarget => Ok(Value::Null),
        Refusal::NotEstablished(state) => Ok(Value::try_from_str(alloc, state_name(*state))?),
        Refusal::HoldTooShort(number) | Refusal::RouterFull(number) => Ok(Value::from(*number)),
        Refusal::PolicyMissing(name) => Ok(Value::try_from_str(alloc, name.as_str())?),
    }
}

/// Returns why a graft was refused.
pub fn refusal_value(alloc: Global, refusal: &Refusal) -> Result<Value, NoMemory>
    ensures { IfOk result (λ v. view v ≡ refusal_json refusal.now) }
{
    let detail = detail_value(alloc, refusal)?;
    let mut map = Map::new(alloc);
    put(&mut map, alloc, "detail", detail)?;
    put_text(&mut map, alloc, "reason", reason_of(refusal))?;
    Ok(Value::Object(map))
}

/// The word for how far a graft is.
fn stage_word(stage: &GraftStage) -> &'static str
    ensures { result.now ≡ stage_word stage.now }
{
    match stage {
        GraftStage::Waiting => "waiting",
        GraftStage::Issued => "open",
        GraftStage::Ended(Outcome::Accepted) => "accepted",
        GraftStage::Ended(Outcome::Refused(_)) => "refused",
    }
}

/// Returns why a graft was refused, or null if it wasn't.
pub fn stage_refusal(alloc: Global, stage: &GraftStage) -> Result<Value, NoMemory>
    ensures { IfOk result (λ v. view v ≡ stage_refusal stage.now) }
{
    match stage {
        GraftStage::Ended(Outcome::Refused(refusal)) => refusal_value(alloc, refusal),
        _ => Ok(Value::Null),
    }
}

/// Returns the router at which a graft was ordered, or null.
pub fn source_value(
    alloc: Global,
    input: &LabInput,
    source: Option<RouterId>,
) -> Result<Value, NoMemory>
    ensures { IfOk result (λ v. view v ≡ source_json input.now source) }
{
    match source {
        Some(router) => Ok(Value::try_from_str(alloc, router_name(input, router.0))?),
        None => Ok(Value::Null),
    }
}

/// Returns a graft.
pub fn graft_value(alloc: Global, input: &LabInput, graft: &GraftEntry) -> Result<Value, NoMemory>
    ensures { IfOk result (λ v. view v ≡ graft_json input.now graft.now) }
{
    let peering = peering_name(input, graft.peering.0);
    let target = router_name(input, graft.target.0);
    let source = source_value(alloc, input, graft.source)?;
    let refusal = stage_refusal(alloc, &graft.stage)?;
    let mut map = Map::new(alloc);
    put(&mut map, alloc, "graft", Value::from(graft.graft))?;
    put_text(&mut map, alloc, "peering", peering)?;
    put(&mut map, alloc, "refusal", refusal)?;
    put_text(&mut map, alloc, "result", stage_word(&graft.stage))?;
    put(&mut map, alloc, "source", source)?;
    put_text(&mut map, alloc, "target", target)?;
    Ok(Value::Object(map))
}

/// The grafts, in the order of the log.
pub(crate) fn grafts_value(alloc: Global, lab: &Lab) -> Result<Value, NoMemory>
    ensures { IfOk result (λ v. view v ≡ grafts_json lab.now) }
{
    let log = lab.log.as_slice();
    let mut list = Vec::with_capacity(alloc, log.len())?;
    for graft in log {
        push_value(&mut list, graft_value(alloc, &lab.input, graft)?)?;
    }
    Ok(Value::Array(list))
}
