//! All that there is at the end of a run, as JSON.

ghost use Rattle.std.specs.Prelude.{◌≡◌, map, option_copied, slice_get, IfOk, OnOk};
ghost use Rattle.std.specs.List.{flat_map, enumerate_from};
ghost use Rattle.report_json.specs.Tokens.{with_value, with_values};
ghost use Rattle.report_json.specs.Values.{list_of, json_line};
ghost use Rattle.why_view.specs.Sources.{numbered_peerings};
ghost use Rattle.why_view.specs.Stories.{story_peering};
ghost use Rattle.show_view.specs.Routes.{best_in};
ghost use Rattle.show_json.specs.Routes.{best_json};
ghost use Rattle.show_json.specs.Show.{router_json, view_json, peering_json, waiting_json, show_json as show_json_lem};

use crate::faults::write_faults;
use crate::routes::write_bests;
use crate::sessions::write_session;
use crate::tables::write_tables;
use bgp_story::Story;
use bgp_types::{NoMemory, Octets, PeeringId};
use lab_report::{Lab, RunEnd, SessionView, place_at};
use lab_tables::{PeeringInput, RouterInput};
use report_json::{JsonText, is_moving, write_end, write_holder};
use show_view::{best_in, numbered, push_pending};
use std::alloc::Global;
use why_view::opened_on;

/// Adds the best routes of the router of this number.
fn write_bests_at(
    out: &mut JsonText,
    alloc: Global,
    lab: &Lab,
    index: usize,
) -> Result<(), NoMemory>
    ensures { OnOk result (out.new
        ≡ with_value (list_of (map (best_json lab.now.input) (best_in (slice_get lab.now.tables index)))) out.old) }
{
    write_bests(out, alloc, &lab.input, best_in(lab.tables.get(index)))
}

/// Adds a router's name, and its best routes with all attributes.
fn write_router(
    out: &mut JsonText,
    alloc: Global,
    lab: &Lab,
    index: usize,
    router: &RouterInput,
) -> Result<(), NoMemory>
    ensures { OnOk result (out.new ≡ with_value (router_json lab.now (index, router.now)) out.old) }
{
    out.begin_object()?;
    out.name("best")?;
    write_bests_at(out, alloc, lab, index)?;
    out.name("name")?;
    out.text(router.name.as_str())?;
    out.end_object()
}

/// Adds the routers, in the order of the input.
fn write_routers(out: &mut JsonText, alloc: Global, lab: &Lab) -> Result<(), NoMemory>
    ensures { OnOk result (out.new
        ≡ with_value (list_of (map (router_json lab.now) (enumerate_from 0 lab.now.input.routers))) out.old) }
{
    let routers = lab.input.routers.as_slice();
    out.begin_list()?;
    for (index, router) in routers.iter().enumerate() {
        write_router(out, alloc, lab, index, router)?;
    }
    out.end_list()
}

/// Adds a peering with its session, which has this story.
fn write_view(
    out: &mut JsonText,
    alloc: Global,
    lab: &Lab,
    number: PeeringId,
    peering: &PeeringInput,
    story: &Story,
) -> Result<(), NoMemory>
    ensures { OnOk result (out.new ≡ with_value (view_json lab.now (slice_get lab.now.placement number.0) (number.0, peering.now)
        (story_peering lab.now.input peering.now) story.now.lines) out.old) }
{
    let place = place_at(lab.placement.as_slice(), usize::from(number.0));
    let opened = opened_on(alloc, peering, story)?;
    out.begin_object()?;
    out.name("at")?;
    write_holder(out, &lab.input, place)?;
    out.name("moving")?;
    out.truth(is_moving(place))?;
    out.name("name")?;
    out.text(peering.name.as_str())?;
    out.name("routes")?;
    write_tables(out, alloc, lab, place, number, peering, story, &opened)?;
    out.name("session")?;
    write_session(out, alloc, peering, story, &opened)?;
    out.end_object()
}

/// The session of a peering.
fn session_on(lab: &Lab, number: PeeringId) -> Option<&SessionView>
    ensures { option_copied result ≡ slice_get lab.now.sessions number.0 }
{
    lab.sessions.get(usize::from(number.0))
}

/// Adds a peering, unless it has no session.
fn write_peering(
    out: &mut JsonText,
    alloc: Global,
    lab: &Lab,
    number: PeeringId,
    peering: &PeeringInput,
) -> Result<(), NoMemory>
    ensures { OnOk result (out.new ≡ with_values (peering_json lab.now (number.0, peering.now)) out.old) }
{
    match session_on(lab, number) {
        Some(session) => write_view(out, alloc, lab, number, peering, &session.story),
        None => Ok(()),
    }
}

/// Adds the peerings, in the order of the input.
fn write_peerings(out: &mut JsonText, alloc: Global, lab: &Lab) -> Result<(), NoMemory>
    ensures { OnOk result (out.new
        ≡ with_value (list_of (flat_map (peering_json lab.now) (numbered_peerings lab.now.input))) out.old) }
{
    let peerings = numbered(lab.input.peerings.as_slice());
    out.begin_list()?;
    for (index, peering) in peerings.iter().enumerate() {
        write_peering(out, alloc, lab, PeeringId(index as u8), peering)?;
    }
    out.end_list()
}

/// Adds what an unsettled run was waiting for, or null.
fn write_waiting(out: &mut JsonText, alloc: Global, lab: &Lab) -> Result<(), NoMemory>
    ensures { OnOk result (out.new ≡ with_value (waiting_json lab.now lab.now.end) out.old) }
{
    let RunEnd::Unsettled { pending, .. } = lab.end else {
        return out.null();
    };
    let mut text = String::new(alloc);
    push_pending(&mut text, alloc, lab, pending)?;
    out.text(text.as_str())
}

/// Adds the whole.
fn write_show(out: &mut JsonText, alloc: Global, lab: &Lab) -> Result<(), NoMemory>
    ensures { OnOk result (out.new ≡ with_value (show_json_lem lab.now) out.old) }
{
    out.begin_object()?;
    out.name("faults")?;
    write_faults(out, alloc, lab)?;
    out.name("job")?;
    out.text("show")?;
    out.name("peerings")?;
    write_peerings(out, alloc, lab)?;
    out.name("result")?;
    write_end(out, &lab.input, lab.end)?;
    out.name("routers")?;
    write_routers(out, alloc, lab)?;
    out.name("version")?;
    out.number(1)?;
    out.name("waiting")?;
    write_waiting(out, alloc, lab)?;
    out.end_object()
}

/// All that there is at the end of a run, as JSON: how it ended and what it was waiting for if it didn't settle; the best routes of each router
/// with all attributes; of each peering what its session came to and its routes before and after the policies, with the reason of each best
/// route that isn't told; and the planned faults whose segments never came.
pub fn show_json(alloc: Global, lab: &Lab) -> Result<Octets, NoMemory>
    ensures { IfOk result (λ text. text ≡ json_line (show_json_lem lab.now)) }
{
    let mut out = JsonText::new(alloc);
    write_show(&mut out, alloc, lab)?;
    out.into_line()
}
