//! What a session came to, as JSON.

ghost use Rattle.std.specs.Prelude.{◌≡◌, option_copied, OnOk};
ghost use Rattle.std.specs.List.{AllByRecursion};
ghost use Rattle.bgp_story.specs.Laws.{IsGotLine};
ghost use Rattle.bgp_story.specs.Legal.{IsGot, got_open};
ghost use Rattle.bgp_types.specs.FirstFault.{message_of};
ghost use Rattle.lab_tables.specs.declared.input.LabInput.{LabInput};
ghost use Rattle.serde_json.specs.Data.{null};
ghost use Rattle.message_json.specs.Messages.{notice_json};
ghost use Rattle.report_json.specs.Tokens.{with_value};
ghost use Rattle.why_view.specs.Stories.{story_peering};
ghost use Rattle.show_view.specs.Sessions.{before_last as before_last_lem, last_of};
ghost use Rattle.show_json.specs.Sessions.{hold_json, width_json, sizes_json, sent_json, received_json, closed_json, expired_json, closed_by, closed_for};
ghost use Rattle.show_json.specs.Sessions.{closing_of, session_json};

use bgp_story::{Line, Story};
use bgp_types::{Expected, Message, NoMemory, Notice, OpenMsg};
use bgp_wire::CodecFault;
use lab_report::state_name;
use lab_tables::PeeringInput;
use message_json::write_notice;
use message_words::read_got;
use report_json::JsonText;
use show_view::{
    as_octets, before_last, expected_last, received_messages, received_octets, sent_messages,
    sent_octets,
};
use std::alloc::Global;
use story_view::lines_of;
use why_view::is_wide;

// ---- what was agreed on

/// Adds the hold time that both sides agreed on, or null.
fn write_hold(
    out: &mut JsonText,
    peering: &PeeringInput,
    opened: &Option<OpenMsg>,
) -> Result<(), NoMemory>
    ensures { (input : LabInput) → OnOk result (out.new
        ≡ with_value (hold_json (story_peering input peering.now).first opened.now) out.old) }
{
    match opened {
        Some(theirs) => out.number(u64::from(peering.home_hold.min(theirs.hold))),
        None => out.null(),
    }
}

/// Adds in how many octets both sides write AS numbers, or null.
fn write_width(
    out: &mut JsonText,
    peering: &PeeringInput,
    opened: &Option<OpenMsg>,
) -> Result<(), NoMemory>
    ensures { (input : LabInput) → OnOk result (out.new
        ≡ with_value (width_json (story_peering input peering.now).first opened.now) out.old) }
{
    match opened {
        Some(_) => out.number(u64::from(as_octets(is_wide(peering, opened)))),
        None => out.null(),
    }
}

// ---- what went each way

/// Adds messages and octets. A count that doesn't fit is NoMemory.
fn write_sizes(out: &mut JsonText, messages: usize, octets: u128) -> Result<(), NoMemory>
    ensures { OnOk result (out.new ≡ with_value (sizes_json messages octets) out.old) }
{
    let Ok(octets) = u64::try_from(octets) else {
        return Err(NoMemory);
    };
    out.begin_object()?;
    out.name("messages")?;
    out.number(messages as u64)?;
    out.name("octets")?;
    out.number(octets)?;
    out.end_object()
}

/// Adds what was sent.
fn write_sent(out: &mut JsonText, wide: bool, lines: &[Line]) -> Result<(), NoMemory>
    ensures { OnOk result (out.new ≡ with_value (sent_json wide lines.now) out.old) }
{
    write_sizes(out, sent_messages(lines), sent_octets(wide, lines))
}

/// Adds what was received.
fn write_received(out: &mut JsonText, lines: &[Line]) -> Result<(), NoMemory>
    ensures { OnOk result (out.new ≡ with_value (received_json lines.now) out.old) }
{
    write_sizes(out, received_messages(lines), received_octets(lines))
}

// ---- why it closed

/// Adds that the hold time expired in a round.
fn write_expired(out: &mut JsonText, round: u32) -> Result<(), NoMemory>
    ensures { OnOk result (out.new ≡ with_value (expired_json round) out.old) }
{
    out.begin_object()?;
    out.name("how")?;
    out.text("hold time expired")?;
    out.name("notice")?;
    out.null()?;
    out.name("round")?;
    out.number(u64::from(round))?;
    out.end_object()
}

/// Adds that a NOTIFICATION was sent or received.
fn write_noticed(
    out: &mut JsonText,
    alloc: Global,
    how: &str,
    notice: &Notice,
) -> Result<(), NoMemory>
    ensures { OnOk result (out.new ≡ with_value (closed_json how.now (notice_json notice.now) null) out.old) }
{
    out.begin_object()?;
    out.name("how")?;
    out.text(how)?;
    out.name("notice")?;
    write_notice(out, alloc, notice)?;
    out.name("round")?;
    out.null()?;
    out.end_object()
}

/// Adds that a NOTIFICATION was sent, or behind a second that the hold time expired in it.
fn write_closed_by(
    out: &mut JsonText,
    alloc: Global,
    before: Option<&Line>,
    notice: &Notice,
) -> Result<(), NoMemory>
    ensures { OnOk result (out.new ≡ with_value (closed_by (option_copied before.entry) notice.now) out.old) }
{
    match before {
        Some(Line::Tick(round)) => write_expired(out, *round),
        _ => write_noticed(out, alloc, "sent", notice),
    }
}

/// Adds that a NOTIFICATION was received, if these octets are one.
fn write_closed_for(
    out: &mut JsonText,
    alloc: Global,
    expected: &Expected,
    bytes: &[u8],
) -> Result<(), NoMemory>
    requires { IsGot bytes.now }
    ensures { OnOk result (out.new ≡ with_value (closed_for (message_of expected.now bytes.now)) out.old) }
{
    match read_got(alloc, expected, bytes) {
        Ok(Message::NoticeMsg(notice)) => write_noticed(out, alloc, "received", &notice),
        Ok(_) | Err(CodecFault::Wire(_)) => out.null(),
        Err(CodecFault::NoMemory) => Err(NoMemory),
    }
}

/// Adds why a session closed, or null. This was expected at its last line.
#[tactic(auto, using(show_view::proofs::Lasts::got_at))]
fn write_closing(
    out: &mut JsonText,
    alloc: Global,
    expected: &Expected,
    lines: &[Line],
) -> Result<(), NoMemory>
    requires { AllByRecursion IsGotLine lines.now }
    ensures { OnOk result (out.new
        ≡ with_value (closing_of expected.now (last_of (before_last_lem lines.now)) (last_of lines.now)) out.old) }
{
    let before = before_last(lines).last();
    match lines.last() {
        Some(Line::Put(Message::NoticeMsg(notice))) => write_closed_by(out, alloc, before, notice),
        Some(Line::Got(bytes)) => write_closed_for(out, alloc, expected, bytes),
        _ => out.null(),
    }
}

// ---- the whole

/// Adds what the session of a peering came to. It got this OPEN.
pub(crate) fn write_session(
    out: &mut JsonText,
    alloc: Global,
    peering: &PeeringInput,
    story: &Story,
    opened: &Option<OpenMsg>,
) -> Result<(), NoMemory>
    ensures { (input : LabInput) → opened.now ≡ got_open (story_peering input peering.now) story.now.lines
        → OnOk result (out.new ≡ with_value (session_json (story_peering input peering.now) story.now.lines) out.old) }
{
    let lines = lines_of(story);
    let expected = expected_last(peering, opened, lines);
    let wide = is_wide(peering, opened);
    let state = state_name(story.state());
    out.begin_object()?;
    out.name("as_octets")?;
    write_width(out, peering, opened)?;
    out.name("closed")?;
    write_closing(out, alloc, &expected, lines)?;
    out.name("hold")?;
    write_hold(out, peering, opened)?;
    out.name("received")?;
    write_received(out, lines)?;
    out.name("sent")?;
    write_sent(out, wide, lines)?;
    out.name("state")?;
    out.text(state)?;
    out.end_object()
}
