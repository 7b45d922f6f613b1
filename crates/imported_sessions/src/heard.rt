//! What both sides of each session say, as far as it is read.

ghost use Rattle.std.specs.Prelude.{ℕ, ◌≡◌, ◌-◌, ◌<◌, ◌++◌, ◌∷◌, List, [], take, length, map, IfOk, IfSome, OnOk};
ghost use Rattle.std.specs.List.{range_with_len};
ghost use Rattle.std.specs.Option.{option_to_list};
ghost use Rattle.bgp_types.specs.Header.{kind_in};
ghost use Rattle.captured_streams.specs.declared.streams.Flow.{Flow as FlowValue};
ghost use Rattle.imported_sessions.specs.Heard.{behind, IsMessageAt, opening_of, said_between, said_in, session_at, session_of, told_by};
ghost use Rattle.imported_sessions.specs.Messages.{unfinished};
ghost use Rattle.imported_sessions.specs.Packed.{AreMoreStepsOf, AreStepsOf};

use crate::imported::Said;
use crate::opened::Opened;
use crate::steps::push_external;
use bgp_frame::{FrontFrame, first_frame};
use bgp_types::types::KEEPALIVE;
use captured_streams::Flow;
use graft_edge::{ByteQueue, NoMemory, Octets};
use std::alloc::Global;
use tcp_seq::Way;

/// How many octets a message, an opening or a step has at most.
pub(crate) const MOST: usize = 4096;

/// How much of a remote's opening is there.
#[derive(Clone, Copy, Debug, PartialEq, Eq)]
pub(crate) enum Stage {
    Nothing,
    /// Its first message. The next one may be part of it.
    Open,
    Whole,
}

/// A remote's opening, as far as it is read.
#[derive(Drop)]
pub(crate) struct Opening {
    stage: Stage,
    pub(crate) octets: Octets,
}

/// A session, as far as it is read.
#[derive(Drop)]
pub(crate) struct Session {
    /// The number of its connection.
    pub(crate) peer: usize,
    pub(crate) opening: Opening,
    /// What is behind the remote's last whole message.
    pub(crate) rest: ByteQueue,
    /// The first octets of the home side, at most 4,096.
    pub(crate) home: Octets,
}

/// What is heard from all remotes.
#[derive(Drop)]
pub(crate) struct Heard {
    pub(crate) sessions: Vec<Session>,
    /// The steps in which the remotes that are kept say the messages behind their openings.
    pub(crate) steps: Vec<Said>,
}

/// Returns the message at the front of octets, if it is whole and its header is sound.
pub(crate) fn front_message(octets: &[u8]) -> Option<FrontFrame>
    ensures { IsMessageAt result octets.now }
{
    match first_frame(octets) {
        Ok(front) => front,
        Err(_) => None,
    }
}

/// Takes a remote's next message, of this type. Returns it if it is behind the opening.
fn take_message(
    opening: &mut Opening,
    kind: u8,
    message: Octets,
) -> Result<Option<Octets>, NoMemory>
    ensures taken { IfOk result (λ after. (all : List (List ℕ)) → opening.old ≡ opening_of all → kind ≡ kind_in message
        → (opening.new ≡ opening_of (all ++ message ∷ [])) × (option_to_list after ≡ behind all message)) }
    ensures same { IfOk result (λ after. IfSome after (λ octets. octets ≡ message)) }
{
    match opening.stage {
        Stage::Nothing => {
            opening.stage = Stage::Open;
            opening.octets = message;
            Ok(None)
        }
        Stage::Open => {
            opening.stage = Stage::Whole;
            if kind != KEEPALIVE || opening.octets.len().saturating_add(message.len()) > MOST {
                return Ok(Some(message));
            }
            opening.octets.extend(&message)?;
            Ok(None)
        }
        Stage::Whole => Ok(Some(message)),
    }
}

/// Takes octets of a remote. The messages that are whole then and stand behind its opening are added to the steps, if the
/// remote is kept.
fn take_octets(
    alloc: Global,
    session: &mut Session,
    octets: &[u8],
    opened: &[Opened],
    home_as: u32,
    steps: &mut Vec<Said>,
) -> Result<(), NoMemory>
    ensures { OnOk result ((stream home : List ℕ) → session.old ≡ session_of session.old.peer stream home
        → (session.new ≡ session_of session.old.peer (stream ++ octets.now) home)
        × AreMoreStepsOf opened.now home_as (said_between session.old.peer stream (stream ++ octets.now)) steps.old.items steps.new.items) }
{
    session.rest.extend(octets)?;
    while let Some(front) = front_message(session.rest.as_slice()) {
        let message = Octets::from_slice(alloc, &session.rest.as_slice()[..front.len])?;
        session.rest.drop_front(front.len);
        let message = take_message(&mut session.opening, front.kind, message)?;
        push_external(steps, opened, home_as, session.peer, message)?;
    }
    Ok(())
}

/// Takes octets of the home side, as far as there is room.
fn take_home(home: &mut Octets, octets: &[u8]) -> Result<(), NoMemory>
    ensures { OnOk result (home.new ≡ home.old ++ take (4096 - length home.old) octets.now) }
{
    let room = octets.len().min(MOST.saturating_sub(home.len()));
    home.extend(&octets[..room])
}

/// Takes what a segment brought. That of an unknown connection is left out.
fn take_flow(
    alloc: Global,
    sessions: &mut Vec<Session>,
    steps: &mut Vec<Said>,
    flow: &Flow,
    opened: &[Opened],
    home_as: u32,
) -> Result<(), NoMemory>
    ensures { OnOk result ((before : List FlowValue) (count : ℕ) → sessions.old.items ≡ map (session_at before) (range_with_len 0 count)
        → (sessions.new.items ≡ map (session_at (before ++ flow.now ∷ [])) (range_with_len 0 count))
        × AreMoreStepsOf opened.now home_as (said_in count before flow.now) steps.old.items steps.new.items) }
{
    if flow.peer >= sessions.len() {
        return Ok(());
    }
    let session = &mut sessions[flow.peer];
    match flow.way {
        Way::Home => take_octets(alloc, session, &flow.octets, opened, home_as, steps),
        Way::Remote => take_home(&mut session.home, &flow.octets),
    }
}

/// Returns this many sessions of which nothing is read.
fn none_heard(alloc: Global, count: usize) -> Result<Vec<Session>, NoMemory>
    ensures { IfOk result (λ sessions. sessions.items ≡ map (session_at []) (range_with_len 0 count)) }
{
    let mut sessions = Vec::new(alloc);
    for peer in 0..count {
        sessions.push(Session {
            peer,
            opening: Opening {
                stage: Stage::Nothing,
                octets: Octets::new(alloc),
            },
            rest: ByteQueue::new(alloc),
            home: Octets::new(alloc),
        })?;
    }
    Ok(sessions)
}

/// Takes what the segments of this many sessions brought, one behind another. Of these that have opened, the remotes of
/// other ASes than the home side's are kept.
pub(crate) fn hear(
    alloc: Global,
    count: usize,
    flows: &[Flow],
    opened: &[Opened],
    home_as: u32,
) -> Result<Heard, NoMemory>
    ensures sessions { IfOk result (λ heard. heard.sessions.items ≡ map (session_at flows.now) (range_with_len 0 count)) }
    ensures steps { IfOk result (λ heard. AreStepsOf opened.now home_as (told_by count flows.now (length flows.now)) heard.steps.items) }
{
    let mut heard = Heard {
        sessions: none_heard(alloc, count)?,
        steps: Vec::new(alloc),
    };
    for flow in flows {
        take_flow(
            alloc,
            &mut heard.sessions,
            &mut heard.steps,
            flow,
            opened,
            home_as,
        )?;
    }
    Ok(heard)
}

/// Returns what is behind the last whole message of a remote.
pub(crate) fn rest_of(sessions: &[Session], peer: usize) -> &[u8]
    requires { peer < length sessions.now }
    ensures { (flows : List FlowValue) (count : ℕ) → sessions.now ≡ map (session_at flows) (range_with_len 0 count)
        → result.now ≡ unfinished peer flows }
{
    sessions[peer].rest.as_slice()
}
