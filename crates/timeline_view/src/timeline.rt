//! The timeline of a run.

ghost use Rattle.std.specs.Prelude.{◌≡◌, ◌++◌, IfOk, OnOk, string_bytes};
ghost use Rattle.timeline_view.specs.Messages.{outlines_of as outlines_of_lem};
ghost use Rattle.timeline_view.specs.Timeline.{text_of, timeline_text as timeline_text_lem};

use crate::event::Happening;
use crate::events::happenings;
use crate::grafts::push_grafts;
use crate::outline::{Outline, outlines_of};
use crate::rounds::{push_openings, push_rounds};
use crate::sessions::{push_sessions, push_total};
use graft_edge::{Items, NoMemory, Octets};
use lab_report::{Lab, push_end};
use std::alloc::Global;

/// The text of what happened.
fn push_text(
    text: &mut String,
    alloc: Global,
    lab: &Lab,
    outlines: &[Outline],
    all: &[Happening],
) -> Result<(), NoMemory>
    requires { outlines.now ≡ outlines_of_lem lab.now }
    ensures { OnOk result (string_bytes text.new ≡ string_bytes text.old ++ text_of lab.now all.now) }
{
    push_end(text, &lab.input, lab.end)?;
    push_openings(text, alloc, lab)?;
    push_rounds(text, alloc, lab, outlines, all)?;
    push_grafts(text, lab, outlines, all)?;
    push_sessions(text, lab)?;
    push_total(text, lab, outlines, all)
}

/// The timeline of a run: how it ended, what happened in each round, what each graft took and what its remote heard of it, and the OPENs and
/// NOTIFICATIONs of each session.
pub fn timeline_text(alloc: Global, lab: &Lab) -> Result<Octets, NoMemory>
    ensures { IfOk result (λ text. text ≡ timeline_text_lem lab.now) }
{
    let all = happenings(alloc, lab)?;
    let outlines = outlines_of(alloc, lab)?;
    let mut text = String::new(alloc);
    push_text(&mut text, alloc, lab, outlines.as_slice(), all.as_slice())?;
    Ok(Items::from_vec(text.into_bytes()))
}
