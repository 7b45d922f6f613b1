//! Where the events of a session begin in its story.

ghost use Rattle.std.specs.Prelude.{◌≡◌, ◌++◌, map, take, IfOk, OnOk};
ghost use Rattle.std.specs.Option.{option_map};
ghost use Rattle.bgp_story.specs.States.{state_of};
ghost use Rattle.story_view.specs.Readings.{peering_of, expected_first as expected_first_lem};
ghost use Rattle.timeline_view.specs.Messages.{head_in, heads, outline_of, outlines_of};

use bgp_story::{Line, Story, after};
use bgp_types::{Expected, SessionState};
use graft_edge::{Items, NoMemory};
use lab_report::{Lab, SessionView};
use std::alloc::Global;
use story_view::{begins, expected_first, lines_of, open_put};

/// A line with which an event begins: its index in the story, and the state of the session before it.
#[derive(Clone, Copy, Debug, PartialEq, Eq)]
pub struct Head {
    pub index: usize,
    pub state: SessionState,
}

/// Lines with which events begin, in order.
pub type Heads = Items<Head>;

/// What is known of a story: the lines with which its events begin, and what the session expects at first.
#[derive(Debug, Drop)]
pub struct Outline {
    pub heads: Heads,
    pub expected: Option<Expected>,
}

/// Outlines, in the order of the peerings.
pub type Outlines = Items<Outline>;

/// Adds the line at an index, if an event begins with it.
fn push_head(
    heads: &mut Heads,
    lines: &[Line],
    index: usize,
    state: SessionState,
    line: &Line,
) -> Result<(), NoMemory>
    requires { state ≡ state_of (take index lines.now) }
    ensures { OnOk result (heads.new ≡ heads.old ++ head_in lines.now (index, line.now)) }
{
    if begins(line) {
        heads.push(Head { index, state })?;
    }
    Ok(())
}

/// The lines with which events begin.
fn heads(alloc: Global, lines: &[Line]) -> Result<Heads, NoMemory>
    ensures { IfOk result (λ all. all ≡ heads lines.now) }
{
    let mut all = Items::new(alloc);
    let mut state = SessionState::OpenSent;
    for (index, line) in lines.iter().enumerate() {
        push_head(&mut all, lines, index, state, line)?;
        state = after(state, line);
    }
    Ok(all)
}

/// What a session expects at first, by its story.
fn expected_of(alloc: Global, story: &Story) -> Result<Option<Expected>, NoMemory>
    ensures { IfOk result (λ expected. expected ≡ option_map (λ p. expected_first_lem p story.now.lines) (peering_of story.now)) }
{
    let lines = lines_of(story);
    let Some(open) = open_put(lines.get(0)) else {
        return Ok(None);
    };
    let expected = expected_first(alloc, open, story.remote_as(), lines)?;
    Ok(Some(expected))
}

/// The outline of a story.
fn outline_of(alloc: Global, story: &Story) -> Result<Outline, NoMemory>
    ensures { IfOk result (λ outline. outline ≡ outline_of story.now) }
{
    let heads = heads(alloc, story.lines())?;
    let expected = expected_of(alloc, story)?;
    Ok(Outline { heads, expected })
}

/// The outlines of these sessions.
fn outlines_in(alloc: Global, sessions: &[SessionView]) -> Result<Outlines, NoMemory>
    ensures { IfOk result (λ all. all ≡ map (λ view. outline_of view.story) sessions.now) }
{
    let mut all = Items::new(alloc);
    for view in sessions {
        all.push(outline_of(alloc, &view.story)?)?;
    }
    Ok(all)
}

/// Returns the outlines of the stories of all sessions.
pub fn outlines_of(alloc: Global, lab: &Lab) -> Result<Outlines, NoMemory>
    ensures { IfOk result (λ all. all ≡ outlines_of lab.now) }
{
    outlines_in(alloc, lab.sessions.as_slice())
}
