//! What isn't told on a session, and why, as JSON.

ghost use Rattle.std.specs.Prelude.{◌≡◌, OnOk};
ghost use Rattle.std.specs.List.{flat_map};
ghost use Rattle.lab_tables.specs.declared.input.RouterInput.{RouterInput};
ghost use Rattle.route_policy.specs.Telling.{out_side_of_view};
ghost use Rattle.report_json.specs.Tokens.{with_value, with_values};
ghost use Rattle.report_json.specs.Values.{list_of};
ghost use Rattle.show_view.specs.Untold.{best_of as best_of_lem, out_side, why_untold as why_untold_lem};
ghost use Rattle.show_json.specs.Routes.{untold_word, untold_as, untold_policy, untold_rule, untold_json, unless_told};

use crate::routes::{write_name, write_rule};
use adj_rib::AdjRib;
use bgp_types::{NoMemory, Prefix};
use lab_report::BestEntry;
use lab_tables::{LabInput, PeeringInput};
use report_json::{JsonText, write_prefix};
use route_policy::OutView;
use show_view::{Untold, best_of, why_untold};
use std::alloc::Global;

fn untold_word(why: Untold) -> &'static str
    ensures { result.now ≡ untold_word why }
{
    match why {
        Untold::CameFromIt => "came from it",
        Untold::ThroughItsAs => "its AS in the path",
        Untold::Denied(_) => "denied",
        Untold::TooLong => "longer than a message",
        Untold::NotYet => "not yet",
    }
}

/// Adds the remote's AS, where it is in the path.
fn write_as(out: &mut JsonText, peering: &PeeringInput, why: Untold) -> Result<(), NoMemory>
    ensures { OnOk result (out.new ≡ with_value (untold_as peering.now why) out.old) }
{
    match why {
        Untold::ThroughItsAs => out.number(u64::from(peering.remote_as)),
        _ => out.null(),
    }
}

/// Adds the export policy, where it denies the route.
fn write_policy(out: &mut JsonText, peering: &PeeringInput, why: Untold) -> Result<(), NoMemory>
    ensures { OnOk result (out.new ≡ with_value (untold_policy peering.now why) out.old) }
{
    match why {
        Untold::Denied(_) => write_name(out, &peering.export),
        _ => out.null(),
    }
}

/// Adds the rule of the export policy that denies the route.
fn write_denying(out: &mut JsonText, why: Untold) -> Result<(), NoMemory>
    ensures { OnOk result (out.new ≡ with_value (untold_rule why) out.old) }
{
    match why {
        Untold::Denied(index) => write_rule(out, index),
        _ => out.null(),
    }
}

/// Adds a route that isn't told, and why.
fn write_reason(
    out: &mut JsonText,
    alloc: Global,
    peering: &PeeringInput,
    prefix: Prefix,
    why: Untold,
) -> Result<(), NoMemory>
    ensures { OnOk result (out.new ≡ with_value (untold_json peering.now prefix why) out.old) }
{
    out.begin_object()?;
    out.name("as")?;
    write_as(out, peering, why)?;
    out.name("policy")?;
    write_policy(out, peering, why)?;
    out.name("prefix")?;
    write_prefix(out, alloc, prefix)?;
    out.name("rule")?;
    write_denying(out, why)?;
    out.name("why")?;
    out.text(untold_word(why))?;
    out.end_object()
}

/// Adds a best route that isn't told.
fn write_untold(
    text: &mut JsonText,
    alloc: Global,
    home_as: u32,
    out: &OutView<'_>,
    peering: &PeeringInput,
    entry: &BestEntry,
) -> Result<(), NoMemory>
    ensures { OnOk result (text.new ≡ with_value (untold_json peering.now entry.now.prefix
        (why_untold_lem home_as (out_side_of_view out.now) entry.now.prefix (best_of_lem entry.now))) text.old) }
{
    let best = best_of(entry)?;
    let why = why_untold(home_as, out, entry.prefix, &best)?;
    write_reason(text, alloc, peering, entry.prefix, why)
}

/// Adds a best route, unless something is told of its prefix.
fn write_unless_told(
    text: &mut JsonText,
    alloc: Global,
    input: &LabInput,
    out: &OutView<'_>,
    peering: &PeeringInput,
    told: &AdjRib,
    entry: &BestEntry,
) -> Result<(), NoMemory>
    ensures { (router : RouterInput) → out_side_of_view out.now ≡ out_side router (out.now.peering.0, peering.now)
        → OnOk result (text.new
        ≡ with_values (unless_told input.now router (out.now.peering.0, peering.now) told.now entry.now) text.old) }
{
    if told.get(entry.prefix).is_some() {
        return Ok(());
    }
    write_untold(text, alloc, input.home_as, out, peering, entry)
}

/// Adds the best routes of a router that aren't told on a session.
pub(crate) fn write_left(
    text: &mut JsonText,
    alloc: Global,
    input: &LabInput,
    out: &OutView<'_>,
    peering: &PeeringInput,
    told: &AdjRib,
    table: &[BestEntry],
) -> Result<(), NoMemory>
    ensures { (router : RouterInput) → out_side_of_view out.now ≡ out_side router (out.now.peering.0, peering.now)
        → OnOk result (text.new
        ≡ with_value (list_of (flat_map (unless_told input.now router (out.now.peering.0, peering.now) told.now) table.now)) text.old) }
{
    text.begin_list()?;
    for entry in table {
        write_unless_told(text, alloc, input, out, peering, told, entry)?;
    }
    text.end_list()
}
