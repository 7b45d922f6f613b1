//! The lines of a story as texts.

ghost use Rattle.std.specs.Prelude.{◌≡◌, ◌+◌, ◌-◌, ◌^◌, ◌<◌, ◌++◌, length, slice_get, if◌then◌else◌, OnOk, string_bytes};
ghost use Rattle.std.specs.List.{AllByRecursion};
ghost use Rattle.bgp_story.specs.Laws.{IsGotLine};
ghost use Rattle.lab_report.specs.Report.{router_name};
ghost use Rattle.story_view.specs.Story.{begins as begins_lem, ends, moment_at as moment_at_lem, moment_words, line_words, moment_line, story_lines};

use crate::moments::Moment;
use bgp_story::{Line, after};
use bgp_types::{Expected, Message, NoMemory, SessionState};
use lab_tables::LabInput;
use message_words::{push_message, push_read};
use std::alloc::Global;
use std::fmt::Write;

/// Returns whether an event begins its part of the story with this line. A KEEPALIVE or a NOTIFICATION that is put is the answer to the line before.
pub fn begins(line: &Line) -> bool
    ensures { result ≡ begins_lem line.now }
{
    match line {
        Line::Put(message) => matches!(message, Message::UpdateMsg(_)),
        Line::Got(_) | Line::Tick(_) => true,
    }
}

/// Returns whether the line behind one of an index is a NOTIFICATION that is put.
fn is_ended(lines: &[Line], index: usize) -> bool
    requires { index < length lines.now }
    ensures { result ≡ ends (slice_get lines.now (index + 1)) }
{
    matches!(lines.get(index + 1), Some(Line::Put(Message::NoticeMsg(_))))
}

/// Returns what a session expects, which had other expectations at first, in this state.
fn expected_in(first: &Expected, state: SessionState) -> Expected
    ensures { result ≡ record first.now { state = state } }
{
    Expected {
        state,
        remote_as: first.remote_as,
        offered: first.offered,
        wide: first.wide,
    }
}

/// Returns how many events have begun with this line, of which so many did before it.
fn counted(events: usize, line: &Line) -> usize
    requires { events < 2 ^ 64 - 1 }
    ensures { result ≡ events + (if begins_lem line.now then 1 else 0) }
{
    if begins(line) { events + 1 } else { events }
}

/// Returns the moment of a number among all, or the opening one if they are fewer.
fn moment_at(all: &[Moment], opening: Moment, number: usize) -> Moment
    ensures { result ≡ moment_at_lem all.now opening number }
{
    all.get(number).copied().unwrap_or(opening)
}

/// Returns the name of the router of a number, or a dash.
fn holder_name(input: &LabInput, holder: u16) -> &str
    ensures { result.now ≡ router_name input.now holder }
{
    match input.routers.get(usize::from(holder)) {
        Some(router) => router.name.as_str(),
        None => "-",
    }
}

/// Adds the round and the name of the holder.
fn push_moment(text: &mut String, input: &LabInput, moment: Moment) -> Result<(), NoMemory>
    ensures { OnOk result (string_bytes text.new ≡ string_bytes text.old ++ moment_words input.now moment) }
{
    let round = moment.round;
    write!(text, "round {round}  ")?;
    text.push_str(holder_name(input, moment.holder))?;
    text.push_str("  ")?;
    Ok(())
}

/// Adds the line of a moment.
fn push_line(
    text: &mut String,
    alloc: Global,
    input: &LabInput,
    moment: Moment,
    expected: &Expected,
    ended: bool,
    line: &Line,
) -> Result<(), NoMemory>
    requires { IsGotLine line.now }
    ensures { OnOk result (string_bytes text.new ≡ string_bytes text.old
        ++ moment_line input.now moment (line_words expected.now ended line.now)) }
{
    match line {
        Line::Put(message) => {
            push_moment(text, input, moment)?;
            text.push_str("put  ")?;
            push_message(text, alloc, true, message)?;
        }
        Line::Got(bytes) => {
            push_moment(text, input, moment)?;
            text.push_str("got  ")?;
            push_read(text, alloc, true, expected, bytes)?;
        }
        Line::Tick(_) if ended => {
            push_moment(text, input, moment)?;
            text.push_str("tick  hold time expired")?;
        }
        Line::Tick(_) => return Ok(()),
    }
    text.push_str("\n")?;
    Ok(())
}

/// Adds the lines of a story, of a session that expects this at first. Each event has its moment in the list, behind that of the OPEN.
#[tactic(auto, using(crate::proofs::Steps::each_at))]
pub(crate) fn push_lines(
    text: &mut String,
    alloc: Global,
    input: &LabInput,
    all: &[Moment],
    opening: Moment,
    first: &Expected,
    lines: &[Line],
) -> Result<(), NoMemory>
    requires { AllByRecursion IsGotLine lines.now }
    ensures { OnOk result (string_bytes text.new ≡ string_bytes text.old ++ story_lines input.now all.now opening first.now lines.now) }
{
    let mut events = 0;
    let mut state = SessionState::OpenSent;
    for (index, line) in lines.iter().enumerate() {
        events = counted(events, line);
        let moment = moment_at(all, opening, events);
        let expected = expected_in(first, state);
        let ended = is_ended(lines, index);
        push_line(text, alloc, input, moment, &expected, ended, line)?;
        state = after(state, line);
    }
    Ok(())
}
