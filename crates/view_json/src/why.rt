//! Why a router has its best route to a prefix, as JSON.

ghost use Rattle.std.specs.Prelude.{◌≡◌, ◌++◌, ◌+◌, Some, map, option_copied, option_map, slice_get, IfOk, OnOk};
ghost use Rattle.std.specs.List.{flat_map, enumerate_from};
ghost use Rattle.serde_json.specs.View.{view};
ghost use Rattle.report_json.specs.Values.{count_or_null as count_or_null_lem, text_or_null, list_of, json_line as json_line_lem};
ghost use Rattle.view_json.specs.Why.{candidate_json, best_json, rule_json, lost_json, unless_best, import_json, excluded_json};
ghost use Rattle.view_json.specs.Why.{denied_json, kept_out_json, excluded_route, excluded_of, why_object, why_fields, why_if_there, why_json as why_json_lem};

use bgp_types::{Name, NoMemory, Octets, PeeringId, Prefix, Rank, Route, RouterId, SharedAttrs};
use decision_core::best;
use lab_report::{Lab, peering_name, router_name};
use lab_tables::{LabInput, PeeringInput, RouterInput};
use report_json::{
    address_value, from_value, json_line, path_value, prefix_value, push_value, put_text,
};
use serde_json::{Map, Value, put};
use std::alloc::Global;
use why_view::{
    Candidate, DecisionRule, SessionEntry, candidates_of, goes_at, imported, is_index, is_loop,
    matching, origin_name, ranks_of, router_of, routers_beside, sessions_at, winner,
};

// ---- candidates

/// A candidate: where it comes from, its path, and what the nine rules compare.
fn candidate_value(
    alloc: Global,
    input: &LabInput,
    candidate: &Candidate,
) -> Result<Value, NoMemory>
    ensures { IfOk result (λ v. view v ≡ candidate_json input.now candidate.now) }
{
    let rank = candidate.1;
    let from = from_value(alloc, input, candidate.0.from)?;
    let path = path_value(alloc, &candidate.0.route.attrs.path)?;
    let identifier = address_value(alloc, rank.identifier)?;
    let address = address_value(alloc, rank.address)?;
    let mut map = Map::new(alloc);
    put(&mut map, alloc, "address", address)?;
    put(&mut map, alloc, "cost", Value::from(rank.cost))?;
    put(&mut map, alloc, "external", Value::from(rank.external))?;
    put(&mut map, alloc, "from", from)?;
    put(&mut map, alloc, "identifier", identifier)?;
    put(&mut map, alloc, "med", Value::from(rank.med))?;
    put(&mut map, alloc, "neighbour", Value::from(rank.neighbour))?;
    put_text(&mut map, alloc, "origin", origin_name(rank.origin))?;
    put(&mut map, alloc, "own", Value::from(rank.own))?;
    put(&mut map, alloc, "path", path)?;
    put(&mut map, alloc, "path_length", Value::from(rank.path_len))?;
    put(&mut map, alloc, "pref", Value::from(rank.pref))?;
    Ok(Value::Object(map))
}

/// The best candidate, or null.
fn best_value(
    alloc: Global,
    input: &LabInput,
    candidate: Option<&Candidate>,
) -> Result<Value, NoMemory>
    ensures { IfOk result (λ v. view v ≡ best_json input.now (option_copied candidate.entry)) }
{
    match candidate {
        Some(candidate) => candidate_value(alloc, input, candidate),
        None => Ok(Value::Null),
    }
}

/// A rule by its number and name.
fn named_rule(alloc: Global, rule: DecisionRule) -> Result<Value, NoMemory>
    ensures { IfOk result (λ v. view v ≡ rule_json (Some rule)) }
{
    let mut map = Map::new(alloc);
    put_text(&mut map, alloc, "name", rule.name())?;
    put(&mut map, alloc, "number", Value::from(rule.number()))?;
    Ok(Value::Object(map))
}

/// The rule at which a candidate went, or null.
fn rule_value(alloc: Global, rule: Option<DecisionRule>) -> Result<Value, NoMemory>
    ensures { IfOk result (λ v. view v ≡ rule_json rule) }
{
    match rule {
        Some(rule) => named_rule(alloc, rule),
        None => Ok(Value::Null),
    }
}

/// A candidate that isn't the best, with the rule at which it went.
fn lost_value(
    alloc: Global,
    input: &LabInput,
    ranks: &[Rank],
    candidate: &Candidate,
) -> Result<Value, NoMemory>
    ensures { IfOk result (λ v. view v ≡ lost_json input.now ranks.now candidate.now) }
{
    let rule = rule_value(alloc, goes_at(alloc, ranks, &candidate.1)?)?;
    let went = candidate_value(alloc, input, candidate)?;
    let mut map = Map::new(alloc);
    put(&mut map, alloc, "candidate", went)?;
    put(&mut map, alloc, "rule", rule)?;
    Ok(Value::Object(map))
}

/// Adds the candidate of an index, unless it is the best.
fn push_unless_best(
    list: &mut Vec<Value>,
    alloc: Global,
    input: &LabInput,
    ranks: &[Rank],
    best: Option<usize>,
    index: usize,
    candidate: &Candidate,
) -> Result<(), NoMemory>
    ensures { OnOk result (map view list.new.items ≡ map view list.old.items ++ unless_best input.now ranks.now best (index, candidate.now)) }
{
    if is_index(best, index) {
        return Ok(());
    }
    push_value(list, lost_value(alloc, input, ranks, candidate)?)?;
    Ok(())
}

/// The candidates that aren't the best.
fn lost_values(
    alloc: Global,
    input: &LabInput,
    ranks: &[Rank],
    best: Option<usize>,
    candidates: &[Candidate],
) -> Result<Value, NoMemory>
    ensures { IfOk result (λ v. view v ≡ list_of (flat_map (unless_best input.now ranks.now best) (enumerate_from 0 candidates.now))) }
{
    let mut list = Vec::with_capacity(alloc, candidates.len())?;
    for (index, candidate) in candidates.iter().enumerate() {
        push_unless_best(&mut list, alloc, input, ranks, best, index, candidate)?;
    }
    Ok(Value::Array(list))
}

// ---- routes that were heard and are no candidates

/// The peering of this number.
fn peering_at(input: &LabInput, peering: PeeringId) -> Option<&PeeringInput>
    ensures { option_copied result ≡ slice_get input.now.peerings peering.0 }
{
    input.peerings.get(usize::from(peering.0))
}

/// A name, or null.
fn name_value(alloc: Global, name: &Option<Name>) -> Result<Value, NoMemory>
    ensures { IfOk result (λ v. view v ≡ text_or_null name.now) }
{
    match name {
        Some(name) => Ok(Value::try_from_str(alloc, name.as_str())?),
        None => Ok(Value::Null),
    }
}

/// The name of a peering's import policy, or null.
fn import_value(alloc: Global, input: &LabInput, peering: PeeringId) -> Result<Value, NoMemory>
    ensures { IfOk result (λ v. view v ≡ import_json input.now peering.0) }
{
    match peering_at(input, peering) {
        Some(peering) => name_value(alloc, &peering.import),
        None => Ok(Value::Null),
    }
}

/// The number of a rule, from 1, or null.
fn rule_number(index: Option<usize>) -> Result<Value, NoMemory>
    ensures { IfOk result (λ v. view v ≡ count_or_null_lem (option_map (λ i. i + 1) index)) }
{
    match index {
        Some(index) => Ok(Value::from(index.checked_add(1).ok_or(NoMemory)?)),
        None => Ok(Value::Null),
    }
}

/// A route that was heard and excluded.
fn excluded_value(
    alloc: Global,
    input: &LabInput,
    by: &str,
    session: &SessionEntry,
    heard: &SharedAttrs,
    policy: Value,
    rule: Value,
) -> Result<Value, NoMemory>
    ensures { IfOk result (λ v. view v ≡ excluded_json input.now by.now session.now heard.now (view policy) (view rule)) }
{
    let path = path_value(alloc, &heard.path)?;
    let remote = peering_name(input, session.peering.0);
    let mut map = Map::new(alloc);
    put_text(&mut map, alloc, "by", by)?;
    put(&mut map, alloc, "path", path)?;
    put_text(&mut map, alloc, "peering", remote)?;
    put(&mut map, alloc, "policy", policy)?;
    put(&mut map, alloc, "rule", rule)?;
    Ok(Value::Object(map))
}

/// A route that the import policy denied.
fn denied_value(
    alloc: Global,
    input: &LabInput,
    prefix: Prefix,
    session: &SessionEntry,
    heard: &SharedAttrs,
) -> Result<Value, NoMemory>
    ensures { IfOk result (λ v. view v ≡ denied_json input.now prefix session.now heard.now) }
{
    let rule = rule_number(matching(prefix, session, heard)?)?;
    let policy = import_value(alloc, input, session.peering)?;
    excluded_value(alloc, input, "policy", session, heard, policy, rule)
}

/// A route that was heard and not let in.
fn kept_out(
    alloc: Global,
    input: &LabInput,
    prefix: Prefix,
    session: &SessionEntry,
    heard: &SharedAttrs,
) -> Result<Value, NoMemory>
    ensures { IfOk result (λ v. view v ≡ kept_out_json input.now prefix session.now heard.now) }
{
    if is_loop(input, heard) {
        let none = Value::Null;
        return excluded_value(alloc, input, "loop", session, heard, none, Value::Null);
    }
    denied_value(alloc, input, prefix, session, heard)
}

/// Adds a route that was heard, unless it was let in.
fn push_unless_in(
    list: &mut Vec<Value>,
    alloc: Global,
    input: &LabInput,
    prefix: Prefix,
    session: &SessionEntry,
    heard: &SharedAttrs,
    route: &Option<Route>,
) -> Result<(), NoMemory>
    ensures { OnOk result (map view list.new.items
        ≡ map view list.old.items ++ excluded_route input.now prefix session.now (Some heard.now) route.now) }
{
    match route {
        Some(_) => Ok(()),
        None => {
            push_value(list, kept_out(alloc, input, prefix, session, heard)?)?;
            Ok(())
        }
    }
}

/// Adds what a session heard, if it heard the prefix and this isn't a route that was let in.
fn push_excluded(
    list: &mut Vec<Value>,
    alloc: Global,
    input: &LabInput,
    prefix: Prefix,
    session: &SessionEntry,
    route: &Option<Route>,
) -> Result<(), NoMemory>
    ensures { OnOk result (map view list.new.items
        ≡ map view list.old.items ++ excluded_route input.now prefix session.now session.now.heard route.now) }
{
    match &session.heard {
        Some(heard) => push_unless_in(list, alloc, input, prefix, session, heard, route),
        None => Ok(()),
    }
}

/// The routes that sessions heard and that are no candidates.
fn excluded_values(
    alloc: Global,
    input: &LabInput,
    prefix: Prefix,
    sessions: &[SessionEntry],
) -> Result<Value, NoMemory>
    ensures { IfOk result (λ v. view v ≡ list_of (flat_map (excluded_of input.now prefix) sessions.now)) }
{
    let mut list = Vec::new(alloc);
    for session in sessions {
        let route = imported(input.home_as, prefix, session)?;
        push_excluded(&mut list, alloc, input, prefix, session, &route)?;
    }
    Ok(Value::Array(list))
}

// ---- the whole

/// What a router of this name has for a prefix, by its parts.
fn why_object(
    alloc: Global,
    prefix: Prefix,
    router: &str,
    best: Value,
    lost: Value,
    excluded: Value,
) -> Result<Value, NoMemory>
    ensures { IfOk result (λ v. view v ≡ why_object prefix router.now (view best) (view lost) (view excluded)) }
{
    let wanted = prefix_value(alloc, prefix)?;
    let mut map = Map::new(alloc);
    put(&mut map, alloc, "best", best)?;
    put(&mut map, alloc, "excluded", excluded)?;
    put_text(&mut map, alloc, "job", "why")?;
    put(&mut map, alloc, "lost", lost)?;
    put(&mut map, alloc, "prefix", wanted)?;
    put_text(&mut map, alloc, "router", router)?;
    put(&mut map, alloc, "version", Value::from(1u32))?;
    Ok(Value::Object(map))
}

/// What a router of this name has for a prefix.
fn why_value(
    alloc: Global,
    input: &LabInput,
    prefix: Prefix,
    router: &str,
    candidates: &[Candidate],
    sessions: &[SessionEntry],
) -> Result<Value, NoMemory>
    ensures { IfOk result (λ v. view v ≡ why_fields input.now prefix router.now candidates.now sessions.now) }
{
    let ranks = ranks_of(alloc, candidates)?;
    let list = ranks.as_slice();
    let index = best(list);
    let chosen = winner(candidates, index);
    let first = best_value(alloc, input, chosen)?;
    let lost = lost_values(alloc, input, list, index, candidates)?;
    let excluded = excluded_values(alloc, input, prefix, sessions)?;
    why_object(alloc, prefix, router, first, lost, excluded)
}

/// What a router of the input has for a prefix.
fn why_of(
    alloc: Global,
    lab: &Lab,
    number: RouterId,
    router: &RouterInput,
    prefix: Prefix,
) -> Result<Value, NoMemory>
    ensures { IfOk result (λ v. view v ≡ why_if_there lab.now prefix number.0 (Some router.now)) }
{
    let sessions = sessions_at(alloc, lab, number, router, prefix)?;
    let routers = routers_beside(alloc, lab, number, prefix)?;
    let networks = router.networks.as_slice();
    let held = sessions.as_slice();
    let beside = routers.as_slice();
    let candidates = candidates_of(alloc, lab.input.home_as, prefix, networks, held, beside)?;
    let name = router.name.as_str();
    why_value(alloc, &lab.input, prefix, name, candidates.as_slice(), held)
}

/// What a router has for a prefix, if the input has it.
fn why_at(alloc: Global, lab: &Lab, number: RouterId, prefix: Prefix) -> Result<Value, NoMemory>
    ensures { IfOk result (λ v. view v ≡ why_json_lem lab.now number.0 prefix) }
{
    match router_of(lab, number) {
        Some(router) => why_of(alloc, lab, number, router, prefix),
        None => {
            let name = router_name(&lab.input, number.0);
            why_value(alloc, &lab.input, prefix, name, &[], &[])
        }
    }
}

/// Why a router has its best route to a prefix at the end of a run, as JSON: the best candidate, the others with the rules of the decision
/// process at which they went, and what its sessions heard of the prefix and was excluded.
pub fn why_json(
    alloc: Global,
    lab: &Lab,
    number: RouterId,
    prefix: Prefix,
) -> Result<Octets, NoMemory>
    ensures { IfOk result (λ text. text ≡ json_line_lem (why_json_lem lab.now number.0 prefix)) }
{
    let value = why_at(alloc, lab, number, prefix)?;
    json_line(alloc, &value)
}
