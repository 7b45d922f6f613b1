//! Routes with all attributes, before and after import policies, as JSON.

ghost use Rattle.std.specs.Prelude.{◌≡◌, ◌+◌, ℕ, List, Some, map, OnOk};
ghost use Rattle.bgp_story.specs.declared.line.Line.{Line};
ghost use Rattle.lab_tables.specs.declared.input.RouterInput.{RouterInput};
ghost use Rattle.report_json.specs.Tokens.{with_value};
ghost use Rattle.report_json.specs.Values.{list_of, text_or_null};
ghost use Rattle.why_view.specs.Sources.{import_rules};
ghost use Rattle.show_json.specs.Routes.{rule_number, best_json, entry_json, looped_json, denied_json, kept_out_json, let_in_json};
ghost use Rattle.show_json.specs.Routes.{accepted_json, imported_json, heard_with, heard_json};
ghost use Rattle.serde_json.specs.Data.{null};

use bgp_types::{Name, NoMemory, Route};
use lab_report::BestEntry;
use lab_tables::{LabInput, PeeringInput};
use message_json::write_attrs;
use report_json::{JsonText, write_from, write_prefix};
use route_policy::Policy;
use show_view::{AttrsEntry, denying_rule, let_in};
use std::alloc::Global;
use why_view::is_loop;

/// Adds the number of a rule, from 1, or null.
pub(crate) fn write_rule(out: &mut JsonText, index: Option<usize>) -> Result<(), NoMemory>
    ensures { OnOk result (out.new ≡ with_value (rule_number index) out.old) }
{
    match index {
        Some(index) => out.number(index.checked_add(1).ok_or(NoMemory)? as u64),
        None => out.null(),
    }
}

/// Adds a name, or null.
pub(crate) fn write_name(out: &mut JsonText, name: &Option<Name>) -> Result<(), NoMemory>
    ensures { OnOk result (out.new ≡ with_value (text_or_null name.now) out.old) }
{
    match name {
        Some(name) => out.text(name.as_str()),
        None => out.null(),
    }
}

/// Adds a best route.
fn write_best(
    out: &mut JsonText,
    alloc: Global,
    input: &LabInput,
    best: &BestEntry,
) -> Result<(), NoMemory>
    ensures { OnOk result (out.new ≡ with_value (best_json input.now best.now) out.old) }
{
    out.begin_object()?;
    out.name("attrs")?;
    write_attrs(out, alloc, &best.route.attrs)?;
    out.name("from")?;
    write_from(out, input, best.from)?;
    out.name("pref")?;
    out.number(u64::from(best.route.pref))?;
    out.name("prefix")?;
    write_prefix(out, alloc, best.prefix)?;
    out.end_object()
}

/// Adds best routes.
pub(crate) fn write_bests(
    out: &mut JsonText,
    alloc: Global,
    input: &LabInput,
    table: &[BestEntry],
) -> Result<(), NoMemory>
    ensures { OnOk result (out.new ≡ with_value (list_of (map (best_json input.now) table.now)) out.old) }
{
    out.begin_list()?;
    for best in table {
        write_best(out, alloc, input, best)?;
    }
    out.end_list()
}

/// Adds a route of which only attributes are said.
pub(crate) fn write_entry(
    out: &mut JsonText,
    alloc: Global,
    entry: &AttrsEntry,
) -> Result<(), NoMemory>
    ensures { OnOk result (out.new ≡ with_value (entry_json entry.now) out.old) }
{
    out.begin_object()?;
    out.name("attrs")?;
    write_attrs(out, alloc, &entry.1)?;
    out.name("prefix")?;
    write_prefix(out, alloc, entry.0)?;
    out.end_object()
}

// ---- what a session heard

/// Adds that the path of a route has the home AS.
fn write_looped(out: &mut JsonText) -> Result<(), NoMemory>
    ensures { OnOk result (out.new ≡ with_value looped_json out.old) }
{
    out.begin_object()?;
    out.name("attrs")?;
    out.null()?;
    out.name("policy")?;
    out.null()?;
    out.name("pref")?;
    out.null()?;
    out.name("result")?;
    out.text("looped")?;
    out.name("rule")?;
    out.null()?;
    out.end_object()
}

/// Adds which rule of the import policy denied a route.
fn write_denied(
    out: &mut JsonText,
    peering: &PeeringInput,
    policy: &Option<Policy>,
    entry: &AttrsEntry,
) -> Result<(), NoMemory>
    ensures { (router : RouterInput) → policy.now ≡ import_rules router peering.now.«import»
        → OnOk result (out.new ≡ with_value (denied_json router peering.now entry.now) out.old) }
{
    let rule = denying_rule(policy, entry)?;
    out.begin_object()?;
    out.name("attrs")?;
    out.null()?;
    out.name("policy")?;
    write_name(out, &peering.import)?;
    out.name("pref")?;
    out.null()?;
    out.name("result")?;
    out.text("denied")?;
    out.name("rule")?;
    write_rule(out, rule)?;
    out.end_object()
}

/// Adds why a route was kept out.
fn write_kept_out(
    out: &mut JsonText,
    input: &LabInput,
    peering: &PeeringInput,
    policy: &Option<Policy>,
    entry: &AttrsEntry,
) -> Result<(), NoMemory>
    ensures { (router : RouterInput) → policy.now ≡ import_rules router peering.now.«import»
        → OnOk result (out.new ≡ with_value (kept_out_json input.now router peering.now entry.now) out.old) }
{
    if is_loop(input, &entry.1) {
        return write_looped(out);
    }
    write_denied(out, peering, policy, entry)
}

/// Adds what was let in of a route.
fn write_accepted(out: &mut JsonText, alloc: Global, route: &Route) -> Result<(), NoMemory>
    ensures { OnOk result (out.new ≡ with_value (accepted_json route.now) out.old) }
{
    out.begin_object()?;
    out.name("attrs")?;
    write_attrs(out, alloc, &route.attrs)?;
    out.name("policy")?;
    out.null()?;
    out.name("pref")?;
    out.number(u64::from(route.pref))?;
    out.name("result")?;
    out.text("accepted")?;
    out.name("rule")?;
    out.null()?;
    out.end_object()
}

/// Adds what was let in of a route, or why nothing was.
fn write_let_in(
    out: &mut JsonText,
    alloc: Global,
    input: &LabInput,
    peering: &PeeringInput,
    policy: &Option<Policy>,
    entry: &AttrsEntry,
    route: &Option<Route>,
) -> Result<(), NoMemory>
    ensures { (router : RouterInput) → policy.now ≡ import_rules router peering.now.«import»
        → OnOk result (out.new ≡ with_value (let_in_json input.now router peering.now entry.now route.now) out.old) }
{
    match route {
        Some(route) => write_accepted(out, alloc, route),
        None => write_kept_out(out, input, peering, policy, entry),
    }
}

/// Adds what the import policy of a session makes of a route that it heard.
fn write_imported(
    out: &mut JsonText,
    alloc: Global,
    input: &LabInput,
    peering: &PeeringInput,
    policy: &Option<Policy>,
    entry: &AttrsEntry,
) -> Result<(), NoMemory>
    ensures { (router : ℕ × RouterInput) (number : ℕ) (lines : List Line) → policy.now ≡ import_rules router.1 peering.now.«import»
        → OnOk result (out.new ≡ with_value (imported_json input.now (Some router) (number, peering.now) lines entry.now) out.old) }
{
    let route = let_in(input, peering.remote_as, policy, entry.0, &entry.1)?;
    write_let_in(out, alloc, input, peering, policy, entry, &route)
}

/// Adds a route that a session heard, before and after the import policy of the router that holds it.
pub(crate) fn write_heard(
    out: &mut JsonText,
    alloc: Global,
    input: &LabInput,
    peering: &PeeringInput,
    policy: &Option<Policy>,
    entry: &AttrsEntry,
) -> Result<(), NoMemory>
    ensures { (router : ℕ × RouterInput) (number : ℕ) (lines : List Line) → policy.now ≡ import_rules router.1 peering.now.«import»
        → OnOk result (out.new ≡ with_value (heard_json input.now (Some router) (number, peering.now) lines entry.now) out.old) }
{
    out.begin_object()?;
    out.name("attrs")?;
    write_attrs(out, alloc, &entry.1)?;
    out.name("import")?;
    write_imported(out, alloc, input, peering, policy, entry)?;
    out.name("prefix")?;
    write_prefix(out, alloc, entry.0)?;
    out.end_object()
}

/// Adds a route that a session heard, which no router holds.
pub(crate) fn write_heard_alone(
    out: &mut JsonText,
    alloc: Global,
    entry: &AttrsEntry,
) -> Result<(), NoMemory>
    ensures { OnOk result (out.new ≡ with_value (heard_with entry.now null) out.old) }
{
    out.begin_object()?;
    out.name("attrs")?;
    write_attrs(out, alloc, &entry.1)?;
    out.name("import")?;
    out.null()?;
    out.name("prefix")?;
    write_prefix(out, alloc, entry.0)?;
    out.end_object()
}
