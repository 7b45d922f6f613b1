//! What happened in a run, as JSON.

ghost use Rattle.std.specs.Prelude.{◌≡◌, ◌++◌, ◌∷◌, [], Some, codes, map, slice_get, IfOk, OnOk};
ghost use Rattle.std.specs.List.{AllByRecursion};
ghost use Rattle.std.specs.Option.{option_copied};
ghost use Rattle.serde_json.specs.View.{view};
ghost use Rattle.bgp_story.specs.Laws.{IsGotLine};
ghost use Rattle.bgp_story.specs.Legal.{IsGot};
ghost use Rattle.lab_report.specs.Report.{peering_name};
ghost use Rattle.timeline_view.specs.Messages.{outline_of, outlines_of};
ghost use Rattle.timeline_view.specs.Numbers.{graft_in as graft_in_lem};
ghost use Rattle.view_json.specs.Events.{event_json, about_message, about_stray, about_link, about_group, put_json, reading_json, got_json, head_json};
ghost use Rattle.view_json.specs.Events.{answered_json, about_step as about_step_lem, messages_at, messages_json, graft_word, refusal_of};
ghost use Rattle.view_json.specs.Events.{about_graft, did_graft, way_word, events_of, happening_json};

use crate::sessions::session_at;
use crate::steps::about_step;
use bgp_story::Line;
use bgp_types::{Expected, Message};
use graft_edge::NoMemory;
use graft_steps::GraftEntry;
use lab_report::{Lab, SessionView, peering_name, router_name};
use lab_tables::LabInput;
use message_json::{message_value, read_value};
use report_json::{push_value, put_text, source_value, stage_refusal};
use serde_json::{Map, Value, put};
use std::alloc::Global;
use story_view::lines_of;
use tcp_seq::Way;
use timeline_view::{
    Event, Happening, Head, Outline, actor_name, behind, graft_in, line_of, remote_name,
};

/// What an actor did in a round, and what that was about.
fn event_value(
    alloc: Global,
    round: usize,
    actor: &str,
    what: &str,
    about: Value,
) -> Result<Value, NoMemory>
    ensures { IfOk result (λ v. view v ≡ event_json round actor.now what.now (view about)) }
{
    let mut map = Map::new(alloc);
    put(&mut map, alloc, "about", about)?;
    put_text(&mut map, alloc, "actor", actor)?;
    put_text(&mut map, alloc, "event", what)?;
    put(&mut map, alloc, "round", Value::from(round))?;
    Ok(Value::Object(map))
}

/// Adds what an actor did in a round.
fn push_event(
    list: &mut Vec<Value>,
    alloc: Global,
    round: usize,
    actor: &str,
    what: &str,
    about: Value,
) -> Result<(), NoMemory>
    ensures { OnOk result (map view list.new.items ≡ map view list.old.items ++ event_json round actor.now what.now (view about) ∷ []) }
{
    push_value(list, event_value(alloc, round, actor, what, about)?)?;
    Ok(())
}

// ---- messages

/// A message of the session with a remote.
fn message_about(alloc: Global, remote: &str, message: Value) -> Result<Value, NoMemory>
    ensures { IfOk result (λ v. view v ≡ about_message remote.now (view message)) }
{
    let mut map = Map::new(alloc);
    put(&mut map, alloc, "message", message)?;
    put_text(&mut map, alloc, "peering", remote)?;
    Ok(Value::Object(map))
}

/// A message that the holder of a session put.
fn put_value(
    alloc: Global,
    round: usize,
    holder: &str,
    remote: &str,
    message: &Message,
) -> Result<Value, NoMemory>
    ensures { IfOk result (λ v. view v ≡ put_json round holder.now remote.now message.now) }
{
    let about = message_about(alloc, remote, message_value(alloc, message)?)?;
    event_value(alloc, round, holder, "put", about)
}

/// What a session read in octets that it got.
fn reading_value(
    alloc: Global,
    expected: Option<Expected>,
    head: Head,
    bytes: &[u8],
) -> Result<Value, NoMemory>
    requires { IsGot bytes.now }
    ensures { IfOk result (λ v. view v ≡ reading_json expected head bytes.now) }
{
    let Some(first) = expected else {
        return Ok(Value::Null);
    };
    let here = Expected {
        state: head.state,
        remote_as: first.remote_as,
        offered: first.offered,
        wide: first.wide,
    };
    read_value(alloc, &here, bytes)
}

/// Octets that the holder of a session got.
fn got_value(
    alloc: Global,
    round: usize,
    holder: &str,
    remote: &str,
    expected: Option<Expected>,
    head: Head,
    bytes: &[u8],
) -> Result<Value, NoMemory>
    requires { IsGot bytes.now }
    ensures { IfOk result (λ v. view v ≡ got_json round holder.now remote.now expected head bytes.now) }
{
    let message = reading_value(alloc, expected, head, bytes)?;
    let about = message_about(alloc, remote, message)?;
    event_value(alloc, round, holder, "got", about)
}

/// Adds a message that the holder of a session put.
pub(crate) fn push_put(
    list: &mut Vec<Value>,
    alloc: Global,
    round: usize,
    holder: &str,
    remote: &str,
    message: &Message,
) -> Result<(), NoMemory>
    ensures { OnOk result (map view list.new.items ≡ map view list.old.items ++ put_json round holder.now remote.now message.now ∷ []) }
{
    push_value(list, put_value(alloc, round, holder, remote, message)?)?;
    Ok(())
}

/// Adds octets that the holder of a session got.
fn push_got(
    list: &mut Vec<Value>,
    alloc: Global,
    round: usize,
    holder: &str,
    remote: &str,
    expected: Option<Expected>,
    head: Head,
    bytes: &[u8],
) -> Result<(), NoMemory>
    requires { IsGot bytes.now }
    ensures { OnOk result (map view list.new.items
        ≡ map view list.old.items ++ got_json round holder.now remote.now expected head bytes.now ∷ []) }
{
    let value = got_value(alloc, round, holder, remote, expected, head, bytes)?;
    push_value(list, value)?;
    Ok(())
}

/// Adds the line of a story with which an event begins.
fn push_head(
    list: &mut Vec<Value>,
    alloc: Global,
    round: usize,
    holder: &str,
    remote: &str,
    expected: Option<Expected>,
    head: Head,
    lines: &[Line],
) -> Result<(), NoMemory>
    requires { AllByRecursion IsGotLine lines.now }
    ensures { OnOk result (map view list.new.items
        ≡ map view list.old.items ++ head_json round holder.now remote.now expected head (slice_get lines.now head.index)) }
{
    match line_of(lines, head.index) {
        Some(Line::Put(message)) => push_put(list, alloc, round, holder, remote, message),
        Some(Line::Got(bytes)) => {
            push_got(list, alloc, round, holder, remote, expected, head, bytes)
        }
        Some(Line::Tick(_)) | None => Ok(()),
    }
}

/// Adds the answer to the line before this one, if it is one.
fn push_answer(
    list: &mut Vec<Value>,
    alloc: Global,
    round: usize,
    holder: &str,
    remote: &str,
    line: Option<&Line>,
) -> Result<(), NoMemory>
    ensures { OnOk result (map view list.new.items
        ≡ map view list.old.items ++ answered_json round holder.now remote.now (option_copied line.entry)) }
{
    let Some(Line::Put(message)) = line else {
        return Ok(());
    };
    match message {
        Message::NoticeMsg(_) | Message::KeepaliveMsg => {
            push_put(list, alloc, round, holder, remote, message)
        }
        Message::OpenMsg(_) | Message::UpdateMsg(_) => Ok(()),
    }
}

/// Adds the messages of an event that begins with this line.
fn push_messages_at(
    list: &mut Vec<Value>,
    alloc: Global,
    round: usize,
    holder: &str,
    remote: &str,
    expected: Option<Expected>,
    head: Head,
    lines: &[Line],
) -> Result<(), NoMemory>
    requires { AllByRecursion IsGotLine lines.now }
    ensures { OnOk result (map view list.new.items
        ≡ map view list.old.items ++ messages_at round holder.now remote.now lines.now expected (Some head)) }
{
    push_head(list, alloc, round, holder, remote, expected, head, lines)?;
    let next = behind(lines, head.index);
    push_answer(list, alloc, round, holder, remote, next)
}

/// The line with which the event of this number begins, from 0.
fn head_at(outline: &Outline, nth: usize) -> Option<Head>
    ensures { result ≡ slice_get outline.now.heads nth }
{
    outline.heads.get(nth).copied()
}

/// Adds the messages of the session's event of this number, from 0.
fn push_session(
    list: &mut Vec<Value>,
    alloc: Global,
    round: usize,
    holder: &str,
    remote: &str,
    session: &SessionView,
    outline: &Outline,
    nth: usize,
) -> Result<(), NoMemory>
    requires { outline.now ≡ outline_of session.now.story }
    ensures { OnOk result (map view list.new.items
        ≡ map view list.old.items ++ messages_at round holder.now remote.now session.now.story.lines outline.now.expected (slice_get outline.now.heads nth)) }
{
    match head_at(outline, nth) {
        Some(head) => {
            let lines = lines_of(&session.story);
            let expected = outline.expected;
            push_messages_at(list, alloc, round, holder, remote, expected, head, lines)
        }
        None => Ok(()),
    }
}

/// The outline of this number.
fn outline_at(outlines: &[Outline], index: usize) -> Option<&Outline>
    ensures { option_copied result ≡ slice_get outlines.now index }
{
    outlines.get(index)
}

/// Adds the messages of a session's event.
fn push_messages(
    list: &mut Vec<Value>,
    alloc: Global,
    lab: &Lab,
    outlines: &[Outline],
    round: usize,
    name: &str,
    peering: u32,
    nth: usize,
) -> Result<(), NoMemory>
    requires { outlines.now ≡ outlines_of lab.now }
    ensures { OnOk result (map view list.new.items ≡ map view list.old.items
        ++ messages_json round name.now (peering_name lab.now.input peering) nth (slice_get lab.now.sessions peering)) }
{
    let place = peering as usize;
    let remote = remote_name(&lab.input, peering);
    let Some(session) = session_at(lab, place) else {
        return Ok(());
    };
    let Some(outline) = outline_at(outlines, place) else {
        return Ok(());
    };
    push_session(list, alloc, round, name, remote, session, outline, nth)
}

// ---- grafts

/// The word for what a router or the operator did with the session of a graft.
fn graft_word(event: Event) -> &'static str
    ensures { result.now ≡ graft_word event }
{
    match event {
        Event::Order { .. } => "ordered",
        Event::Admit { .. } => "admitted",
        Event::Refuse { .. } => "refused",
        Event::Freeze { .. } => "froze",
        Event::Leave { .. } => "sent",
        Event::Land { .. } => "landed",
        Event::TurnBack { .. } => "turned back",
        Event::Return { .. } => "took back",
        Event::Clear { .. } => "cleared",
        Event::Confirm { .. } => "confirmed",
        _ => "",
    }
}

/// Why a graft was refused or turned back, or null.
fn refusal_of(alloc: Global, graft: &GraftEntry, event: Event) -> Result<Value, NoMemory>
    ensures { IfOk result (λ v. view v ≡ refusal_of graft.now event) }
{
    match event {
        Event::Refuse { .. } | Event::TurnBack { .. } => stage_refusal(alloc, &graft.stage),
        _ => Ok(Value::Null),
    }
}

/// A graft, and why it was refused.
fn graft_about(
    alloc: Global,
    input: &LabInput,
    graft: &GraftEntry,
    refusal: Value,
) -> Result<Value, NoMemory>
    ensures { IfOk result (λ v. view v ≡ about_graft input.now graft.now (view refusal)) }
{
    let source = source_value(alloc, input, graft.source)?;
    let remote = peering_name(input, graft.peering.0);
    let target = router_name(input, graft.target.0);
    let mut map = Map::new(alloc);
    put(&mut map, alloc, "graft", Value::from(graft.graft))?;
    put_text(&mut map, alloc, "peering", remote)?;
    put(&mut map, alloc, "refusal", refusal)?;
    put(&mut map, alloc, "source", source)?;
    put_text(&mut map, alloc, "target", target)?;
    Ok(Value::Object(map))
}

/// Adds the event of a graft, if the log has the graft.
fn push_graft(
    list: &mut Vec<Value>,
    alloc: Global,
    lab: &Lab,
    round: usize,
    name: &str,
    event: Event,
    graft: u32,
) -> Result<(), NoMemory>
    ensures { OnOk result (map view list.new.items
        ≡ map view list.old.items ++ did_graft lab.now.input round name.now event (graft_in_lem lab.now.log graft)) }
{
    let Some(entry) = graft_in(lab.log.as_slice(), graft) else {
        return Ok(());
    };
    let refusal = refusal_of(alloc, entry, event)?;
    let about = graft_about(alloc, &lab.input, entry, refusal)?;
    push_event(list, alloc, round, name, graft_word(event), about)
}

// ---- remotes and links

/// A segment of a remote.
fn stray_about(alloc: Global, remote: &str) -> Result<Value, NoMemory>
    ensures { IfOk result (λ v. view v ≡ about_stray remote.now) }
{
    let mut map = Map::new(alloc);
    put_text(&mut map, alloc, "peering", remote)?;
    Ok(Value::Object(map))
}

/// Adds that a segment of a remote came astray.
fn push_stray(
    list: &mut Vec<Value>,
    alloc: Global,
    round: usize,
    name: &str,
    remote: &str,
) -> Result<(), NoMemory>
    ensures { OnOk result (map view list.new.items
        ≡ map view list.old.items ++ event_json round name.now (codes "stray") (about_stray remote.now) ∷ []) }
{
    let about = stray_about(alloc, remote)?;
    push_event(list, alloc, round, name, "stray", about)
}

/// Adds what a remote said.
fn push_say(
    list: &mut Vec<Value>,
    alloc: Global,
    input: &LabInput,
    round: usize,
    name: &str,
    step: u32,
) -> Result<(), NoMemory>
    ensures { OnOk result (map view list.new.items
        ≡ map view list.old.items ++ event_json round name.now (codes "said") (about_step_lem input.now step) ∷ []) }
{
    let about = about_step(alloc, input, step)?;
    push_event(list, alloc, round, name, "said", about)
}

fn way_word(way: Way) -> &'static str
    ensures { result.now ≡ way_word way }
{
    match way {
        Way::Home => "home",
        Way::Remote => "remote",
    }
}

/// The way of a segment.
fn link_about(alloc: Global, way: Way) -> Result<Value, NoMemory>
    ensures { IfOk result (λ v. view v ≡ about_link way) }
{
    let mut map = Map::new(alloc);
    put_text(&mut map, alloc, "to", way_word(way))?;
    Ok(Value::Object(map))
}

/// Adds what a link did with a segment.
fn push_link(
    list: &mut Vec<Value>,
    alloc: Global,
    round: usize,
    name: &str,
    what: &str,
    way: Way,
) -> Result<(), NoMemory>
    ensures { OnOk result (map view list.new.items
        ≡ map view list.old.items ++ event_json round name.now what.now (about_link way) ∷ []) }
{
    let about = link_about(alloc, way)?;
    push_event(list, alloc, round, name, what, about)
}

/// A group by its number.
fn group_about(alloc: Global, group: usize) -> Result<Value, NoMemory>
    ensures { IfOk result (λ v. view v ≡ about_group group) }
{
    let mut map = Map::new(alloc);
    put(&mut map, alloc, "group", Value::from(group))?;
    Ok(Value::Object(map))
}

/// Adds the beginning of a group.
fn push_begin(
    list: &mut Vec<Value>,
    alloc: Global,
    round: usize,
    name: &str,
    group: usize,
) -> Result<(), NoMemory>
    ensures { OnOk result (map view list.new.items
        ≡ map view list.old.items ++ event_json round name.now (codes "began") (about_group group) ∷ []) }
{
    let about = group_about(alloc, group)?;
    push_event(list, alloc, round, name, "began", about)
}

// ---- all

/// Adds what happened.
fn push_events(
    list: &mut Vec<Value>,
    alloc: Global,
    lab: &Lab,
    outlines: &[Outline],
    round: usize,
    name: &str,
    event: Event,
) -> Result<(), NoMemory>
    requires { outlines.now ≡ outlines_of lab.now }
    ensures { OnOk result (map view list.new.items ≡ map view list.old.items ++ events_of lab.now round name.now event) }
{
    match event {
        Event::Decide | Event::Tell | Event::Hear => Ok(()),
        Event::Message { peering, nth } => {
            push_messages(list, alloc, lab, outlines, round, name, peering, nth)
        }
        Event::Stray { peering } => {
            let remote = remote_name(&lab.input, peering);
            push_stray(list, alloc, round, name, remote)
        }
        Event::Say { step } => push_say(list, alloc, &lab.input, round, name, step),
        Event::Lose { way } => push_link(list, alloc, round, name, "lost", way),
        Event::Repeat { way } => push_link(list, alloc, round, name, "repeated", way),
        Event::Begin { group } => push_begin(list, alloc, round, name, group),
        Event::Order { graft }
        | Event::Admit { graft }
        | Event::Refuse { graft }
        | Event::Freeze { graft }
        | Event::Leave { graft }
        | Event::Land { graft }
        | Event::TurnBack { graft }
        | Event::Return { graft }
        | Event::Clear { graft }
        | Event::Confirm { graft } => push_graft(list, alloc, lab, round, name, event, graft),
    }
}

/// Adds what happened at one entry.
pub(crate) fn push_happening(
    list: &mut Vec<Value>,
    alloc: Global,
    lab: &Lab,
    outlines: &[Outline],
    happening: &Happening,
) -> Result<(), NoMemory>
    requires { outlines.now ≡ outlines_of lab.now }
    ensures { OnOk result (map view list.new.items ≡ map view list.old.items ++ happening_json lab.now happening.now) }
{
    let name = actor_name(&lab.input, happening.actor);
    let round = happening.round;
    push_events(list, alloc, lab, outlines, round, name, happening.event)
}
