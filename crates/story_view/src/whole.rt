//! The story of a session as a text.

ghost use Rattle.std.specs.Prelude.{◌≡◌, ◌++◌, OnOk, IfOk, string_bytes};
ghost use Rattle.std.specs.List.{AllByRecursion};
ghost use Rattle.bgp_story.specs.Laws.{IsGotLine};
ghost use Rattle.bgp_story.specs.Legal.{both_offer as both_offer_lem};
ghost use Rattle.bgp_story.specs.Opens.{offers as offers_lem};
ghost use Rattle.entry_rounds.specs.Rounds.{entry_rounds as entry_rounds_lem};
ghost use Rattle.story_view.specs.Readings.{peering_of, expected_first as expected_first_lem};
ghost use Rattle.story_view.specs.Story.{lines_of as lines_of_lem, moments as moments_lem, opening_of as opening_of_lem, story_text as story_text_lem};

use crate::lines::push_lines;
use crate::moments::{Moment, Moments, moments};
use crate::reading::open_put;
use bgp_story::{Line, Story};
use bgp_types::{Expected, NoMemory, OpenMsg, SessionState};
use bgp_wire::as_said;
use entry_rounds::entry_rounds;
use graft_edge::PeeringId;
use lab_report::Lab;
use lab_tables::{LabInput, PeeringInput};
use message_words::open_got;
use std::alloc::Global;

/// Returns the lines of a story. What was got is in each a whole message with a sound header, or a header with a fault.
pub fn lines_of(story: &Story) -> &[Line]
    ensures lines { result.now ≡ story.now.lines }
    ensures got { AllByRecursion IsGotLine result.now }
{
    story.lines()
}

/// Returns whether an OPEN offers AS numbers of four octets.
fn offers(message: &OpenMsg) -> bool
    ensures { result ≡ offers_lem message.now }
{
    as_said(&message.caps).is_some()
}

/// Returns whether both OPENs offer AS numbers of four octets.
fn both_offer(first: &OpenMsg, theirs: &Option<OpenMsg>) -> bool
    ensures { result ≡ both_offer_lem first.now theirs.now }
{
    match theirs {
        Some(theirs) => offers(first) && offers(theirs),
        None => false,
    }
}

/// Returns what a session with these lines expects at first, with the width of AS numbers that it comes to have (RFC 6793, section 4.1).
pub fn expected_first(
    alloc: Global,
    first: &OpenMsg,
    remote_as: u32,
    lines: &[Line],
) -> Result<Expected, NoMemory>
    requires { AllByRecursion IsGotLine lines.now }
    ensures { IfOk result (λ expected. expected ≡ expected_first_lem (record { first = first.now; remote_as = remote_as }) lines.now) }
{
    let theirs = open_got(alloc, first, remote_as, lines)?;
    Ok(Expected {
        state: SessionState::OpenSent,
        remote_as,
        offered: offers(first),
        wide: both_offer(first, &theirs),
    })
}

/// Adds the lines of a story, with the moments of its events.
fn push_story(
    text: &mut String,
    alloc: Global,
    input: &LabInput,
    all: &[Moment],
    opening: Moment,
    story: &Story,
) -> Result<(), NoMemory>
    ensures { OnOk result (string_bytes text.new ≡ string_bytes text.old ++ lines_of_lem input.now all.now opening (peering_of story.now) story.now.lines) }
{
    let lines = lines_of(story);
    let Some(first) = open_put(lines.get(0)) else {
        return Ok(());
    };
    let expected = expected_first(alloc, first, story.remote_as(), lines)?;
    push_lines(text, alloc, input, all, opening, &expected, lines)
}

/// Returns the moments of the session of a peering in a run.
fn session_moments(
    alloc: Global,
    lab: &Lab,
    opening: Moment,
    peering: PeeringId,
) -> Result<Moments, NoMemory>
    ensures { IfOk result (λ all. all ≡ moments_lem opening peering.0 lab.now.journal (entry_rounds_lem lab.now.marks lab.now.journal)) }
{
    let rounds = entry_rounds(alloc, &lab.marks, &lab.journal)?;
    moments(alloc, opening, u32::from(peering.0), &lab.journal, &rounds)
}

/// Returns the moment at which the session of a peering puts its OPEN: before the first round, at the router at which the peering starts.
fn opening_of(peering: &PeeringInput) -> Moment
    ensures { result ≡ opening_of_lem peering.now }
{
    Moment {
        round: 0,
        holder: u16::from(peering.at.0),
    }
}

/// Returns the story of the session of a peering in a run: a line for each message that was put or got, and for the end of the hold time, with the
/// round and the router that held the session then. It is empty where there is no such peering. It takes one pass over the journal and one
/// over the story.
pub fn story_text(alloc: Global, lab: &Lab, peering: PeeringId) -> Result<String, NoMemory>
    ensures { IfOk result (λ text. string_bytes text ≡ story_text_lem lab.now peering.0) }
{
    let mut text = String::new(alloc);
    let index = usize::from(peering.0);
    let (Some(there), Some(view)) = (lab.input.peerings.get(index), lab.sessions.get(index)) else {
        return Ok(text);
    };
    let opening = opening_of(there);
    let all = session_moments(alloc, lab, opening, peering)?;
    push_story(&mut text, alloc, &lab.input, &all, opening, &view.story)?;
    Ok(text)
}
