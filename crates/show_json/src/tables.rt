//! The routes of a session, as JSON.

ghost use Rattle.std.specs.Prelude.{◌≡◌, [], ℕ, List, None, Some, map, OnOk};
ghost use Rattle.bgp_story.specs.declared.line.Line.{Line};
ghost use Rattle.bgp_story.specs.Legal.{got_open};
ghost use Rattle.lab_report.specs.declared.lab.Lab.{Lab as LabValue};
ghost use Rattle.lab_tables.specs.declared.input.RouterInput.{RouterInput as RouterValue};
ghost use Rattle.report_json.specs.Tokens.{with_value};
ghost use Rattle.report_json.specs.Values.{list_of};
ghost use Rattle.why_view.specs.Sources.{import_rules};
ghost use Rattle.why_view.specs.Stories.{story_peering};
ghost use Rattle.show_view.specs.Show.{holder_of};
ghost use Rattle.show_json.specs.Routes.{entry_json, heard_with, heard_json, all_untold};
ghost use Rattle.serde_json.specs.Data.{null};
ghost use Rattle.show_json.specs.Show.{tables_json};

use crate::routes::{write_entry, write_heard, write_heard_alone};
use crate::untold::write_left;
use adj_rib::AdjRib;
use bgp_story::Story;
use bgp_types::{NoMemory, OpenMsg, PeeringId, RouterId, SessionState};
use lab_report::{Lab, Place};
use lab_tables::{LabInput, PeeringInput, RouterInput};
use report_json::JsonText;
use route_policy::{OutView, Policy};
use show_view::{
    AttrsEntry, best_in, entries_of, holder_number, is_established, router_at, told_on,
};
use std::alloc::Global;
use why_view::{import_policy, routes_on};

/// Adds the routes that a session heard, with what the import policy of its router makes of them.
fn write_all_heard(
    out: &mut JsonText,
    alloc: Global,
    input: &LabInput,
    peering: &PeeringInput,
    policy: &Option<Policy>,
    entries: &[AttrsEntry],
) -> Result<(), NoMemory>
    ensures { (router : ℕ × RouterValue) (number : ℕ) (lines : List Line) → policy.now ≡ import_rules router.1 peering.now.«import»
        → OnOk result (out.new
        ≡ with_value (list_of (map (heard_json input.now (Some router) (number, peering.now) lines) entries.now)) out.old) }
{
    out.begin_list()?;
    for entry in entries {
        write_heard(out, alloc, input, peering, policy, entry)?;
    }
    out.end_list()
}

/// Adds the routes that a session heard, which no router holds.
fn write_all_heard_alone(
    out: &mut JsonText,
    alloc: Global,
    entries: &[AttrsEntry],
) -> Result<(), NoMemory>
    ensures { OnOk result (out.new ≡ with_value (list_of (map (λ e. heard_with e null) entries.now)) out.old) }
{
    out.begin_list()?;
    for entry in entries {
        write_heard_alone(out, alloc, entry)?;
    }
    out.end_list()
}

/// Adds the routes that were told on a session.
fn write_all_told(out: &mut JsonText, alloc: Global, entries: &[AttrsEntry]) -> Result<(), NoMemory>
    ensures { OnOk result (out.new ≡ with_value (list_of (map entry_json entries.now)) out.old) }
{
    out.begin_list()?;
    for entry in entries {
        write_entry(out, alloc, entry)?;
    }
    out.end_list()
}

/// Adds an empty list.
fn write_none(out: &mut JsonText) -> Result<(), NoMemory>
    ensures { OnOk result (out.new ≡ with_value (list_of []) out.old) }
{
    out.begin_list()?;
    out.end_list()
}

/// Adds the best routes of a session's holder that aren't told on it, if it is established.
fn write_all_untold(
    text: &mut JsonText,
    alloc: Global,
    lab: &Lab,
    holder: RouterId,
    router: &RouterInput,
    number: PeeringId,
    peering: &PeeringInput,
    state: SessionState,
    told: &AdjRib,
) -> Result<(), NoMemory>
    ensures { OnOk result (text.new
        ≡ with_value (list_of (all_untold lab.now (Some (holder.0, router.now)) (number.0, peering.now) state told.now)) text.old) }
{
    if !is_established(state) {
        return write_none(text);
    }
    let export = import_policy(router, &peering.export)?;
    let out = OutView {
        peering: number,
        remote_as: peering.remote_as,
        local_address: peering.local_address,
        export: export.as_ref(),
    };
    let table = best_in(lab.tables.get(usize::from(holder.0)));
    write_left(text, alloc, &lab.input, &out, peering, told, table)
}

/// Adds the routes of a session on its way, which got this OPEN.
fn write_alone(
    out: &mut JsonText,
    alloc: Global,
    peering: &PeeringInput,
    story: &Story,
    opened: &Option<OpenMsg>,
) -> Result<(), NoMemory>
    ensures { (lab : LabValue) (number : ℕ) → opened.now ≡ got_open (story_peering lab.input peering.now) story.now.lines
        → OnOk result (out.new
        ≡ with_value (tables_json lab None (number, peering.now) (story_peering lab.input peering.now) story.now.lines) out.old) }
{
    let heard = entries_of(alloc, &routes_on(alloc, peering, story, opened)?)?;
    let told = entries_of(alloc, &told_on(alloc, story)?)?;
    out.begin_object()?;
    out.name("heard")?;
    write_all_heard_alone(out, alloc, &heard)?;
    out.name("told")?;
    write_all_told(out, alloc, &told)?;
    out.name("untold")?;
    write_none(out)?;
    out.end_object()
}

/// Adds the routes of a session that this router holds, and that got this OPEN.
fn write_held(
    out: &mut JsonText,
    alloc: Global,
    lab: &Lab,
    holder: RouterId,
    router: &RouterInput,
    number: PeeringId,
    peering: &PeeringInput,
    story: &Story,
    opened: &Option<OpenMsg>,
) -> Result<(), NoMemory>
    requires { opened.now ≡ got_open (story_peering lab.now.input peering.now) story.now.lines }
    ensures { OnOk result (out.new
        ≡ with_value (tables_json lab.now (Some (holder.0, router.now)) (number.0, peering.now)
        (story_peering lab.now.input peering.now) story.now.lines) out.old) }
{
    let import = import_policy(router, &peering.import)?;
    let heard = entries_of(alloc, &routes_on(alloc, peering, story, opened)?)?;
    let rib = told_on(alloc, story)?;
    let told = entries_of(alloc, &rib)?;
    let state = story.state();
    out.begin_object()?;
    out.name("heard")?;
    write_all_heard(out, alloc, &lab.input, peering, &import, &heard)?;
    out.name("told")?;
    write_all_told(out, alloc, &told)?;
    out.name("untold")?;
    write_all_untold(
        out, alloc, lab, holder, router, number, peering, state, &rib,
    )?;
    out.end_object()
}

/// Adds the routes of a session at its place. It got this OPEN.
pub(crate) fn write_tables(
    out: &mut JsonText,
    alloc: Global,
    lab: &Lab,
    place: Option<Place>,
    number: PeeringId,
    peering: &PeeringInput,
    story: &Story,
    opened: &Option<OpenMsg>,
) -> Result<(), NoMemory>
    requires { opened.now ≡ got_open (story_peering lab.now.input peering.now) story.now.lines }
    ensures { OnOk result (out.new
        ≡ with_value (tables_json lab.now (holder_of lab.now.input place) (number.0, peering.now)
        (story_peering lab.now.input peering.now) story.now.lines) out.old) }
{
    let Some(holder) = holder_number(place) else {
        return write_alone(out, alloc, peering, story, opened);
    };
    match router_at(&lab.input, usize::from(holder.0)) {
        Some(router) => write_held(
            out, alloc, lab, holder, router, number, peering, story, opened,
        ),
        None => write_alone(out, alloc, peering, story, opened),
    }
}
