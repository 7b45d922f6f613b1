//! A session that is made again from what its story spells.

ghost use Rattle.std.specs.Prelude.{◌≡◌, ◌≢◌, ◌↔◌, ◌≤◌, ◌∷◌, [], List, Err, length, IsTrue, MatchBool, IfOk, OnOk};
ghost use Rattle.bgp_story.specs.declared.line.Line as line_type;
ghost use Rattle.bgp_story.specs.Legal.{IsPeering};
ghost use Rattle.session_value.specs.Sessions.{peering_of};
ghost use Rattle.bgp_story.specs.States.{state_of};
ghost use Rattle.bgp_types.specs.declared.message.SessionState.TheVariants as states;
ghost use Rattle.capsule_bytes.specs.declared.parts.PartLine as part_type;
ghost use Rattle.capsule_parts.specs.Retold.{HasBegun, HasTold, IsRetold, IsStoryOf, IsToldSoFar, StaysTold};

use crate::offer::tell_put;
use crate::stop::PartsStop;
use crate::story::are_part_lines;
use bgp_session::Session;
use bgp_types::{Items, NoMemory, Octets, SessionState, is_no_host};
use capsule_bytes::PartLine;
use session_value::SessionConfig;
use std::alloc::Global;

/// Returns whether a configuration gives an OPEN that a home side may put, and an AS of the remote.
fn is_peering(config: &SessionConfig) -> bool
    ensures { IsTrue result ↔ IsPeering (peering_of config.now) }
{
    config.home_as != 0
        && config.remote_as != 0
        && config.home_hold != 1
        && config.home_hold != 2
        && !is_no_host(config.identifier)
}

/// Returns a session that has put its OPEN, and received all these bytes.
fn begun(alloc: Global, config: SessionConfig, received: Octets) -> Result<Session, NoMemory>
    requires peering { IsPeering (peering_of config) }
    requires few { length received ≤ 1048576 }
    ensures { IfOk result (λ session. HasBegun config received session.session) }
{
    let mut session = Session::begin(alloc, config)?;
    let mut end = session.end_state()?;
    end.ready = received;
    end.ahead = Items::new(alloc);
    session.set_end(end);
    Ok(session)
}

/// Tells the next line of a story. Returns false if the session can't go on with it.
fn tell_line(alloc: Global, session: &mut Session, line: &PartLine) -> Result<bool, NoMemory>
    ensures stays { OnOk result (StaysTold session.old.session session.new.session) }
    ensures told { (story : List line_type.Line) (rest : List part_type.PartLine) → IsToldSoFar story (line.now ∷ rest) session.old.session
        → IfOk result (λ told. IsTrue told × IsToldSoFar story rest session.new.session) }
{
    match line {
        PartLine::Got(_) => Ok(session.read()?.is_some()),
        PartLine::Tick(round) => session.pass_again(*round),
        PartLine::Put(octets) => tell_put(alloc, session, octets.as_slice()),
    }
}

/// Tells a story to its end. Returns false if the session can't go on with one of its lines.
fn tell_lines(alloc: Global, session: &mut Session, story: &[PartLine]) -> Result<bool, NoMemory>
    ensures stays { OnOk result (StaysTold session.old.session session.new.session) }
    ensures told { (told : List line_type.Line) → IsToldSoFar told story.now session.old.session
        → IfOk result (λ all. IsTrue all × IsToldSoFar told [] session.new.session) }
{
    for line in story.iter() {
        if !tell_line(alloc, session, line)? {
            return Ok(false);
        }
    }
    Ok(true)
}

/// Returns whether a session is established, and its story is spelled in these lines.
fn has_told(alloc: Global, session: &Session, story: &[PartLine]) -> Result<bool, NoMemory>
    ensures { IfOk result (λ all. MatchBool all (HasTold session.now.session story.now) (¬ HasTold session.now.session story.now)) }
{
    if session.state() != SessionState::Established {
        return Ok(false);
    }
    are_part_lines(alloc, session.story().lines(), story, session.wide())
}

/// Returns the session that has told this story, and received these bytes. It is refused if there is no such session.
pub(crate) fn retold(
    alloc: Global,
    config: SessionConfig,
    received: Octets,
    story: &[PartLine],
) -> Result<Session, PartsStop>
    requires { length received ≤ 1048576 }
    ensures ok { IfOk result (λ session. IsRetold config story.now session.session) }
    ensures refused { result ≡ Err PartsStop.Unsound
        → (told : List line_type.Line) → IsStoryOf (peering_of config) received story.now told → state_of told ≢ states.Established }
    ensures same { (told : List line_type.Line) → IsStoryOf (peering_of config) received story.now told
        → IfOk result (λ session. session.session.story ≡ told) }
{
    if !is_peering(&config) {
        return Err(PartsStop::Unsound);
    }
    let mut session = begun(alloc, config, received)?;
    if !tell_lines(alloc, &mut session, story)? {
        return Err(PartsStop::Unsound);
    }
    if !has_told(alloc, &session, story)? {
        return Err(PartsStop::Unsound);
    }
    Ok(session)
}
