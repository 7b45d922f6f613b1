//! OPENs and NOTIFICATIONs of sessions.

ghost use Rattle.std.specs.Prelude.{◌≡◌, ◌++◌, Some, OnOk, IfOk, sum_by, count_by, string_bytes};
ghost use Rattle.std.specs.List.{flat_map, enumerate_from};
ghost use Rattle.bgp_story.specs.States.{is_type as is_type_lem};
ghost use Rattle.timeline_view.specs.Messages.{outlines_of};
ghost use Rattle.timeline_view.specs.Sessions.{is_open_put, is_notice_put, is_got, opens_put, opens_got, notices_put, notices_got};
ghost use Rattle.timeline_view.specs.Sessions.{session_line, peering_session_line, further_opens, notices, withdrawn_after, total_line};

use crate::event::Happening;
use crate::grafts::updates_after;
use crate::lines::push_number;
use crate::outline::Outline;
use bgp_story::Line;
use bgp_types::types::{NOTIFICATION, OPEN};
use bgp_types::{HEADER, Message, header_fault};
use graft_edge::NoMemory;
use graft_steps::GraftEntry;
use lab_report::{Lab, SessionView};
use lab_tables::PeeringInput;
use story_view::lines_of;

/// Whether octets begin with a sound header of this type.
fn is_type(kind: u8, octets: &[u8]) -> bool
    ensures { result ≡ is_type_lem kind octets.now }
{
    octets.len() >= HEADER && header_fault(octets).is_none() && octets[18] == kind
}

fn is_open_put(line: &Line) -> bool
    ensures { result ≡ is_open_put line.now }
{
    matches!(line, Line::Put(Message::OpenMsg(_)))
}

fn is_notice_put(line: &Line) -> bool
    ensures { result ≡ is_notice_put line.now }
{
    matches!(line, Line::Put(Message::NoticeMsg(_)))
}

/// Whether a message of this type was got.
fn is_got(kind: u8, line: &Line) -> bool
    ensures { result ≡ is_got kind line.now }
{
    match line {
        Line::Got(octets) => is_type(kind, octets),
        _ => false,
    }
}

fn opens_put_in(lines: &[Line]) -> usize
    ensures { result ≡ count_by is_open_put lines.now }
{
    lines.iter().filter(|line| is_open_put(*line)).count()
}

/// Returns how many OPENs a session put.
pub fn opens_put(view: &SessionView) -> usize
    ensures { result ≡ opens_put view.now }
{
    opens_put_in(lines_of(&view.story))
}

fn opens_got_in(lines: &[Line]) -> usize
    ensures { result ≡ count_by (is_got 1) lines.now }
{
    lines.iter().filter(|line| is_got(OPEN, *line)).count()
}

/// Returns how many OPENs a session got.
pub fn opens_got(view: &SessionView) -> usize
    ensures { result ≡ opens_got view.now }
{
    opens_got_in(lines_of(&view.story))
}

fn notices_put_in(lines: &[Line]) -> usize
    ensures { result ≡ count_by is_notice_put lines.now }
{
    lines.iter().filter(|line| is_notice_put(*line)).count()
}

/// Returns how many NOTIFICATIONs a session put.
pub fn notices_put(view: &SessionView) -> usize
    ensures { result ≡ notices_put view.now }
{
    notices_put_in(lines_of(&view.story))
}

fn notices_got_in(lines: &[Line]) -> usize
    ensures { result ≡ count_by (is_got 3) lines.now }
{
    lines
        .iter()
        .filter(|line| is_got(NOTIFICATION, *line))
        .count()
}

/// Returns how many NOTIFICATIONs a session got.
pub fn notices_got(view: &SessionView) -> usize
    ensures { result ≡ notices_got view.now }
{
    notices_got_in(lines_of(&view.story))
}

/// The line of a session.
fn push_session(text: &mut String, name: &str, view: &SessionView) -> Result<(), NoMemory>
    ensures { OnOk result (string_bytes text.new ≡ string_bytes text.old ++ session_line name.now (Some view.now)) }
{
    let open_put = opens_put(view);
    let open_got = opens_got(view);
    let notice_put = notices_put(view);
    let notice_got = notices_got(view);
    text.push_str("session ")?;
    text.push_str(name)?;
    push_number(text, "  OPEN put ", open_put)?;
    push_number(text, " got ", open_got)?;
    push_number(text, "  NOTIFICATION put ", notice_put)?;
    push_number(text, " got ", notice_got)?;
    text.push_str("\n")?;
    Ok(())
}

/// The line of a peering, if it has a session.
fn push_peering(
    text: &mut String,
    sessions: &[SessionView],
    index: usize,
    peering: &PeeringInput,
) -> Result<(), NoMemory>
    ensures { OnOk result (string_bytes text.new ≡ string_bytes text.old ++ peering_session_line sessions.now (index, peering.now)) }
{
    match sessions.get(index) {
        Some(view) => push_session(text, peering.name.as_str(), view),
        None => Ok(()),
    }
}

/// The lines of the sessions of these peerings.
fn push_peerings(
    text: &mut String,
    sessions: &[SessionView],
    peerings: &[PeeringInput],
) -> Result<(), NoMemory>
    ensures { OnOk result (string_bytes text.new ≡ string_bytes text.old ++ flat_map (peering_session_line sessions.now) (enumerate_from 0 peerings.now)) }
{
    for (index, peering) in peerings.iter().enumerate() {
        push_peering(text, sessions, index, peering)?;
    }
    Ok(())
}

/// The lines of all sessions.
pub(crate) fn push_sessions(text: &mut String, lab: &Lab) -> Result<(), NoMemory>
    ensures { OnOk result (string_bytes text.new ≡ string_bytes text.old
        ++ flat_map (peering_session_line lab.now.sessions) (enumerate_from 0 lab.now.input.peerings)) }
{
    push_peerings(text, lab.sessions.as_slice(), lab.input.peerings.as_slice())
}

/// How many OPENs stand behind the first one each way. A count that doesn't fit is NoMemory.
fn further_opens(view: &SessionView) -> Result<usize, NoMemory>
    ensures { IfOk result (λ count. count ≡ further_opens view.now) }
{
    let put = opens_put(view).saturating_sub(1);
    let got = opens_got(view).saturating_sub(1);
    put.checked_add(got).ok_or(NoMemory)
}

/// Returns how many OPENs of all sessions stand behind the first one each way. A count that doesn't fit is NoMemory.
pub fn all_further_opens(sessions: &[SessionView]) -> Result<usize, NoMemory>
    ensures { IfOk result (λ count. count ≡ sum_by further_opens sessions.now) }
{
    let mut count: usize = 0;
    for view in sessions {
        count = count.checked_add(further_opens(view)?).ok_or(NoMemory)?;
    }
    Ok(count)
}

fn notices(view: &SessionView) -> Result<usize, NoMemory>
    ensures { IfOk result (λ count. count ≡ notices view.now) }
{
    notices_put(view)
        .checked_add(notices_got(view))
        .ok_or(NoMemory)
}

/// Returns how many NOTIFICATIONs were put and got on all sessions. A count that doesn't fit is NoMemory.
pub fn all_notices(sessions: &[SessionView]) -> Result<usize, NoMemory>
    ensures { IfOk result (λ count. count ≡ sum_by notices sessions.now) }
{
    let mut count: usize = 0;
    for view in sessions {
        count = count.checked_add(notices(view)?).ok_or(NoMemory)?;
    }
    Ok(count)
}

/// Returns how many prefixes were withdrawn from the remotes of these grafts, each from its landing to the end of its group. A count that
/// doesn't fit is NoMemory.
pub fn withdrawn_in(
    lab: &Lab,
    outlines: &[Outline],
    all: &[Happening],
    log: &[GraftEntry],
) -> Result<usize, NoMemory>
    requires { outlines.now ≡ outlines_of lab.now }
    ensures { IfOk result (λ count. count ≡ sum_by (withdrawn_after lab.now all.now) log.now) }
{
    let mut count: usize = 0;
    for graft in log {
        let counts = updates_after(lab, outlines, graft, all)?;
        count = count.checked_add(counts.withdrawn).ok_or(NoMemory)?;
    }
    Ok(count)
}

/// The line of the whole run.
pub(crate) fn push_total(
    text: &mut String,
    lab: &Lab,
    outlines: &[Outline],
    all: &[Happening],
) -> Result<(), NoMemory>
    requires { outlines.now ≡ outlines_of lab.now }
    ensures { OnOk result (string_bytes text.new ≡ string_bytes text.old ++ total_line lab.now all.now) }
{
    let opens = all_further_opens(lab.sessions.as_slice())?;
    let notices = all_notices(lab.sessions.as_slice())?;
    let withdrawn = withdrawn_in(lab, outlines, all, lab.log.as_slice())?;
    push_number(text, "total  further OPENs ", opens)?;
    push_number(text, "  NOTIFICATIONs ", notices)?;
    push_number(text, "  withdrawn from moved remotes ", withdrawn)?;
    text.push_str("\n")?;
    Ok(())
}
