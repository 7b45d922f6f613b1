//! What a session came to: what both sides agreed on, what went each way, and why it closed.

ghost use Rattle.std.specs.Prelude.{◌≡◌, ◌++◌, cond, count_by, length, option_copied, Ok, Some, OnOk, string_bytes};
ghost use Rattle.std.specs.List.{AllByRecursion};
ghost use Rattle.bgp_story.specs.Laws.{IsGotLine};
ghost use Rattle.bgp_story.specs.Legal.{IsGot, expected_next, got_open};
ghost use Rattle.bgp_story.specs.Readings.{got_in};
ghost use Rattle.bgp_story.specs.States.{state_of as state_of_lem};
ghost use Rattle.bgp_types.specs.declared.message.Message.TheVariants.{NoticeMsg};
ghost use Rattle.bgp_types.specs.FirstFault.{message_of};
ghost use Rattle.lab_tables.specs.declared.input.LabInput.{LabInput};
ghost use Rattle.why_view.specs.Stories.{story_peering};
ghost use Rattle.show_view.specs.Sessions.{agreed_words, as_octets as as_octets_lem, before_last as before_last_lem, closed_line, closed_start, closing_words};
ghost use Rattle.show_view.specs.Sessions.{is_got, is_put, last_of, messages_line, put_size as put_size_lem};
ghost use Rattle.show_view.specs.Sessions.{received_octets as received_octets_lem, received_words, sent_octets as sent_octets_lem, sent_words, state_line};

use bgp_story::{Line, Story, after};
use bgp_types::{Expected, Message, NoMemory, Notice, OpenMsg, SessionState, message_len};
use bgp_wire::CodecFault;
use lab_report::{Place, push_place, state_name};
use lab_tables::{LabInput, PeeringInput};
use message_words::{push_notice, read_got};
use std::alloc::Global;
use std::fmt::Write;
use why_view::{established, is_wide};

/// Returns in how many octets AS numbers are written.
pub fn as_octets(wide: bool) -> u8
    ensures { result ≡ as_octets_lem wide }
{
    if wide { 4 } else { 2 }
}

/// Adds the hold time and the width of AS numbers by both OPENs, and dashes if the remote's wasn't got.
fn push_agreed(
    text: &mut String,
    peering: &PeeringInput,
    opened: &Option<OpenMsg>,
) -> Result<(), NoMemory>
    ensures { (input : LabInput)
        → OnOk result (string_bytes text.new ≡ string_bytes text.old ++ agreed_words (story_peering input peering.now).first opened.now) }
{
    let Some(theirs) = opened else {
        text.push_str(" hold - as-octets -")?;
        return Ok(());
    };
    let hold = peering.home_hold.min(theirs.hold);
    let octets = as_octets(is_wide(peering, opened));
    write!(text, " hold {hold} as-octets {octets}")?;
    Ok(())
}

/// Adds the line of where a session is, its state, and what was agreed on. It got this OPEN.
pub(crate) fn push_state(
    text: &mut String,
    input: &LabInput,
    place: Option<Place>,
    peering: &PeeringInput,
    story: &Story,
    opened: &Option<OpenMsg>,
) -> Result<(), NoMemory>
    requires { opened.now ≡ got_open (story_peering input.now peering.now) story.now.lines }
    ensures { OnOk result (string_bytes text.new
        ≡ string_bytes text.old ++ state_line input.now peering.now.name place (story_peering input.now peering.now) story.now.lines) }
{
    push_place(text, input, peering.name.as_str(), place)?;
    text.push_str(" state ")?;
    text.push_str(state_name(story.state()))?;
    push_agreed(text, peering, opened)?;
    text.push_str("\n")?;
    Ok(())
}

/// Returns 1 for a line that put a message.
fn put_count(line: &Line) -> usize
    ensures { result ≡ cond (is_put line.now) 1 0 }
{
    match line {
        Line::Put(_) => 1,
        Line::Got(_) | Line::Tick(_) => 0,
    }
}

/// Returns 1 for a line that got a message.
fn got_count(line: &Line) -> usize
    ensures { result ≡ cond (is_got line.now) 1 0 }
{
    match line {
        Line::Got(_) => 1,
        Line::Put(_) | Line::Tick(_) => 0,
    }
}

/// Returns how many messages were put.
#[tactic(auto, using(crate::proofs::Octets::count_more))]
pub fn sent_messages(lines: &[Line]) -> usize
    ensures { result ≡ count_by is_put lines.now }
{
    let mut sent = 0;
    for line in lines {
        sent += put_count(line);
    }
    sent
}

/// Returns how many messages were got.
#[tactic(auto, using(crate::proofs::Octets::count_more))]
pub fn received_messages(lines: &[Line]) -> usize
    ensures { result ≡ count_by is_got lines.now }
{
    let mut received = 0;
    for line in lines {
        received += got_count(line);
    }
    received
}

/// Returns how many octets a line put.
fn put_size(wide: bool, line: &Line) -> usize
    ensures { result ≡ put_size_lem wide line.now }
{
    match line {
        Line::Put(message) => message_len(message, wide),
        Line::Got(_) | Line::Tick(_) => 0,
    }
}

/// Returns how many octets a line got.
fn got_size(line: &Line) -> usize
    ensures { result ≡ length (got_in line.now) }
{
    match line {
        Line::Got(octets) => octets.len(),
        Line::Put(_) | Line::Tick(_) => 0,
    }
}

/// Returns how many octets were put.
#[tactic(auto, using(crate::proofs::Octets::sent_more))]
pub fn sent_octets(wide: bool, lines: &[Line]) -> u128
    ensures { result ≡ sent_octets_lem wide lines.now }
{
    let mut octets = 0;
    for line in lines {
        octets += put_size(wide, line) as u128;
    }
    octets
}

/// Returns how many octets were got.
#[tactic(auto, using(crate::proofs::Octets::received_more))]
pub fn received_octets(lines: &[Line]) -> u128
    ensures { result ≡ received_octets_lem lines.now }
{
    let mut octets = 0;
    for line in lines {
        octets += got_size(line) as u128;
    }
    octets
}

/// Adds the line of messages and octets, those that were sent first.
pub(crate) fn push_messages(
    text: &mut String,
    name: &str,
    wide: bool,
    lines: &[Line],
) -> Result<(), NoMemory>
    ensures { OnOk result (string_bytes text.new ≡ string_bytes text.old ++ messages_line name.now wide lines.now) }
{
    let sent = sent_messages(lines);
    let put = sent_octets(wide, lines);
    let received = received_messages(lines);
    let got = received_octets(lines);
    text.push_str("messages ")?;
    text.push_str(name)?;
    write!(text, " sent {sent} octets {put}")?;
    write!(text, " received {received} octets {got}\n")?;
    Ok(())
}

/// Returns the lines before the last one.
pub fn before_last(lines: &[Line]) -> &[Line]
    ensures { result.now ≡ before_last_lem lines.now }
{
    &lines[..lines.len().saturating_sub(1)]
}

/// Returns the state of a session with these lines.
#[tactic(auto, using(crate::proofs::Octets::state_more))]
fn state_of(lines: &[Line]) -> SessionState
    ensures { result ≡ state_of_lem lines.now }
{
    let mut state = SessionState::OpenSent;
    for line in lines {
        state = after(state, line);
    }
    state
}

/// Returns what the session of a peering expected at its last line. It got this OPEN.
pub fn expected_last(peering: &PeeringInput, opened: &Option<OpenMsg>, lines: &[Line]) -> Expected
    ensures { (input : LabInput) → opened.now ≡ got_open (story_peering input peering.now) lines.now
        → result ≡ expected_next (story_peering input peering.now) lines.now (state_of_lem (before_last_lem lines.now)) }
{
    Expected {
        state: state_of(before_last(lines)),
        ..established(peering, opened)
    }
}

/// Adds that a NOTIFICATION was sent, or behind a second that the hold time expired in it.
fn push_sent(
    text: &mut String,
    alloc: Global,
    before: Option<&Line>,
    notice: &Notice,
) -> Result<(), NoMemory>
    ensures { OnOk result (string_bytes text.new ≡ string_bytes text.old ++ sent_words (option_copied before.entry) notice.now) }
{
    match before {
        Some(Line::Tick(round)) => {
            write!(text, "hold time expired in round {round}")?;
            Ok(())
        }
        _ => {
            text.push_str("sent ")?;
            push_notice(text, alloc, notice)
        }
    }
}

/// Adds the beginning of the line that says why a session closed.
fn push_closed(text: &mut String, name: &str) -> Result<(), NoMemory>
    ensures { OnOk result (string_bytes text.new ≡ string_bytes text.old ++ closed_start name.now) }
{
    text.push_str("closed ")?;
    text.push_str(name)?;
    text.push_str(" ")?;
    Ok(())
}

/// Adds the line of a session that sent a NOTIFICATION.
fn push_sent_line(
    text: &mut String,
    alloc: Global,
    name: &str,
    before: Option<&Line>,
    notice: &Notice,
) -> Result<(), NoMemory>
    ensures { OnOk result (string_bytes text.new ≡ string_bytes text.old ++ closed_line name.now (Some (sent_words (option_copied before.entry) notice.now))) }
{
    push_closed(text, name)?;
    push_sent(text, alloc, before, notice)?;
    text.push_str("\n")?;
    Ok(())
}

/// Adds the line of a session that received a NOTIFICATION.
fn push_notice_line(
    text: &mut String,
    alloc: Global,
    name: &str,
    notice: &Notice,
) -> Result<(), NoMemory>
    ensures { OnOk result (string_bytes text.new ≡ string_bytes text.old ++ closed_line name.now (received_words (Ok (NoticeMsg notice.now)))) }
{
    push_closed(text, name)?;
    text.push_str("received ")?;
    push_notice(text, alloc, notice)?;
    text.push_str("\n")?;
    Ok(())
}

/// Adds the line of a session that got these octets last, if they are a NOTIFICATION.
fn push_received_line(
    text: &mut String,
    alloc: Global,
    name: &str,
    expected: &Expected,
    bytes: &[u8],
) -> Result<(), NoMemory>
    requires { IsGot bytes.now }
    ensures { OnOk result (string_bytes text.new ≡ string_bytes text.old ++ closed_line name.now (received_words (message_of expected.now bytes.now))) }
{
    match read_got(alloc, expected, bytes) {
        Ok(Message::NoticeMsg(notice)) => push_notice_line(text, alloc, name, &notice),
        Ok(_) | Err(CodecFault::Wire(_)) => Ok(()),
        Err(CodecFault::NoMemory) => Err(NoMemory),
    }
}

/// Adds why a session closed, if it did. This was expected at its last line.
#[tactic(auto, using(crate::proofs::Lasts::got_at))]
pub(crate) fn push_closing(
    text: &mut String,
    alloc: Global,
    name: &str,
    expected: &Expected,
    lines: &[Line],
) -> Result<(), NoMemory>
    requires { AllByRecursion IsGotLine lines.now }
    ensures { OnOk result (string_bytes text.new ≡ string_bytes text.old
        ++ closed_line name.now (closing_words expected.now (last_of (before_last_lem lines.now)) (last_of lines.now))) }
{
    let before = before_last(lines).last();
    match lines.last() {
        Some(Line::Put(Message::NoticeMsg(notice))) => {
            push_sent_line(text, alloc, name, before, notice)
        }
        Some(Line::Got(bytes)) => push_received_line(text, alloc, name, expected, bytes),
        _ => Ok(()),
    }
}
