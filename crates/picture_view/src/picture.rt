//! The picture of a run.

ghost use Rattle.std.specs.Prelude.{◌≡◌, ◌++◌, IfOk, OnOk, string_bytes};
ghost use Rattle.picture_view.specs.Picture.{shapes_text, text_of, picture_text as picture_text_lem};

use crate::axes::{push_axes, push_names};
use crate::heads::{push_head, push_refused};
use crate::plan::{Plan, plan_of};
use crate::positions::{height_of, width_of};
use crate::shapes::{push_all_kept, push_bows, push_first_stays, push_marks, push_stays};
use graft_edge::{Items, NoMemory, Octets};
use lab_report::{Lab, refused_in};
use std::alloc::Global;

/// Where sessions were.
#[tactic(auto, unfolding(crate::specs::Picture::shapes_text))]
fn push_shapes(text: &mut String, lab: &Lab, plan: &Plan) -> Result<(), NoMemory>
    ensures { OnOk result (string_bytes text.new ≡ string_bytes text.old ++ shapes_text lab.now plan.now) }
{
    let points = plan.points.as_slice();
    push_all_kept(text, plan, points)?;
    push_bows(text, &lab.input, plan, points)?;
    push_first_stays(text, &lab.input, plan, lab.input.peerings.as_slice())?;
    push_stays(text, &lab.input, plan, points)?;
    push_marks(text, &lab.input, plan, points)
}

/// The text of what the picture shows.
#[tactic(auto, unfolding(crate::specs::Picture::text_of))]
fn push_text(text: &mut String, alloc: Global, lab: &Lab, plan: &Plan) -> Result<(), NoMemory>
    ensures { OnOk result (string_bytes text.new ≡ string_bytes text.old ++ text_of lab.now plan.now) }
{
    let log = lab.log.as_slice();
    let width = width_of(plan)?;
    let height = height_of(plan, refused_in(log))?;
    push_head(text, alloc, lab, width, height)?;
    push_axes(text, plan)?;
    push_shapes(text, lab, plan)?;
    push_names(text, &lab.input, plan)?;
    push_refused(text, alloc, &lab.input, plan, log)?;
    text.push_str("</svg>\n")?;
    Ok(())
}

/// The picture of a run, as an SVG: a lane for each router, in which the sessions that it holds are lines; bows where they are on their way; marks
/// where they landed and where grafts were refused; rounds along, a legend, and the refused grafts below. It has no script and needs no other file.
#[tactic(auto, unfolding(crate::specs::Picture::picture_text))]
pub fn picture_text(alloc: Global, lab: &Lab) -> Result<Octets, NoMemory>
    ensures { IfOk result (λ text. text ≡ picture_text_lem lab.now) }
{
    let plan = plan_of(alloc, lab)?;
    let mut text = String::new(alloc);
    push_text(&mut text, alloc, lab, &plan)?;
    Ok(Items::from_vec(text.into_bytes()))
}
