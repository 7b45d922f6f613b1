//! A session and a plain remote over links that lose, repeat and reorder, while the session moves.

use crate::calls::{Opening, arrive, begin, moved, offer, reach, remote, tick};
use crate::link::Link;
use crate::texts::octets;
use anyhow::Result;
use bgp_session::{ReadStep, Session, TickStep};
use bgp_types::SessionState;
use graft_edge::NoMemory;
use row_harness::{Random, number};
use std::alloc::Global;
use tcp_end::End;
use tcp_seq::Segment;

/// The number of steps of an exchange, and the number after which the session moves.
const STEPS: u32 = 2_000;

const MOVE: u32 = 10;

/// The number of UPDATEs of each side.
const UPDATES: u32 = 60;

/// What the sides say: octets of their messages. An UPDATE ends with the number that makes its prefix.
#[derive(Debug, Drop)]
pub struct Plan {
    opening: Opening,
    /// The session's OPEN and KEEPALIVE, its UPDATEs, and how it ends.
    open: Vec<u8>,
    keepalive: Vec<u8>,
    update: Vec<u8>,
    end: Vec<u8>,
    /// The remote's OPEN and KEEPALIVE, its UPDATEs, and what it says at the end.
    their_open: Vec<u8>,
    their_update: Vec<u8>,
    their_end: Vec<u8>,
}

fn plan_of(alloc: Global, words: &[&str]) -> Result<Plan> {
    Ok(Plan {
        opening: Opening::read(words, 3)?,
        open: octets(alloc, words, 6)?,
        keepalive: octets(alloc, words, 7)?,
        update: octets(alloc, words, 8)?,
        end: octets(alloc, words, 9)?,
        their_open: octets(alloc, words, 10)?,
        their_update: octets(alloc, words, 11)?,
        their_end: octets(alloc, words, 12)?,
    })
}

/// What surrounds a session: the remote, the links, what the session should have put, how many messages both said, and
/// the rounds that passed.
#[derive(Drop)]
struct Rest {
    far: End,
    homeward: Link,
    remoteward: Link,
    put: Vec<u8>,
    said: u32,
    told: u32,
    round: u32,
    random: Random,
}

fn rest_of(alloc: Global, plan: &Plan, seed: u32) -> Result<Rest> {
    let mut put = Vec::new(alloc);
    put.extend_from_slice(&plan.open)?;
    Ok(Rest {
        far: remote(alloc, plan.opening)?,
        homeward: Link::new(alloc),
        remoteward: Link::new(alloc),
        put,
        said: 0,
        told: 0,
        round: 0,
        random: Random::new(seed),
    })
}

/// Returns a message that ends in a number.
fn numbered(alloc: Global, octets: &[u8], number: u32) -> Result<Vec<u8>> {
    let mut bytes = Vec::new(alloc);
    bytes.extend_from_slice(octets)?;
    bytes.push((number % 256) as u8)?;
    Ok(bytes)
}

/// The remote says its next message.
fn say(alloc: Global, rest: &mut Rest, plan: &Plan) -> Result<()> {
    let n = rest.said;
    rest.said = n.saturating_add(1);
    if n == 0 {
        rest.far.send(&plan.their_open)?;
        rest.far.send(&plan.keepalive)?;
    } else if n <= UPDATES {
        rest.far.send(&numbered(alloc, &plan.their_update, n)?)?;
    } else if n == UPDATES + 1 {
        rest.far.send(&plan.their_end)?;
    }
    Ok(())
}

/// The session puts its next UPDATE, if it is established.
fn tell(alloc: Global, session: &mut Session, rest: &mut Rest, plan: &Plan) -> Result<()> {
    if session.state() != SessionState::Established || rest.told >= UPDATES {
        return Ok(());
    }
    let octets = numbered(alloc, &plan.update, rest.told)?;
    offer(alloc, session, &octets)??;
    rest.told = rest.told.saturating_add(1);
    rest.put.extend_from_slice(&octets)?;
    Ok(())
}

/// Emits a segment of the session, of one of three kinds.
fn home_segment(session: &mut Session, kind: u32) -> Result<Option<Segment>, NoMemory> {
    match kind {
        0 => session.turn(),
        1 => Ok(session.answer()),
        _ => session.next_segment(),
    }
}

/// Emits a segment of the remote, of one of three kinds.
fn far_segment(far: &mut End, kind: u32) -> Result<Option<Segment>, NoMemory> {
    match kind {
        0 => far.turn(),
        1 => Ok(far.answer()),
        _ => far.next_segment(),
    }
}

/// Each side sends a segment.
fn emit(session: &mut Session, rest: &mut Rest) -> Result<()> {
    let segment = home_segment(session, rest.random.below(4))?;
    rest.remoteward.put(segment, &mut rest.random)?;
    let segment = far_segment(&mut rest.far, rest.random.below(4))?;
    rest.homeward.put(segment, &mut rest.random)?;
    Ok(())
}

/// Lets a segment arrive at each side.
fn deliver(session: &mut Session, rest: &mut Rest) -> Result<()> {
    if let Some(segment) = rest.homeward.next(&mut rest.random) {
        arrive(session, &segment)?;
    }
    if let Some(segment) = rest.remoteward.next(&mut rest.random) {
        reach(&mut rest.far, &segment)?;
    }
    Ok(())
}

/// Lets the session read, and appends the answer that it should put to `put`.
fn take(session: &mut Session, put: &mut Vec<u8>, plan: &Plan) -> Result<()> {
    match session.read()? {
        Some(ReadStep::Opened) => put.extend_from_slice(&plan.keepalive)?,
        Some(ReadStep::Closed(_)) => put.extend_from_slice(&plan.end)?,
        _ => {}
    }
    Ok(())
}

/// Lets a round pass if a hold time runs.
fn pass(session: &mut Session, rest: &mut Rest, plan: &Plan) -> Result<()> {
    if !session.may_pass(rest.round.saturating_add(1)) {
        return Ok(());
    }
    rest.round = rest.round.saturating_add(1);
    match tick(session, rest.round)? {
        TickStep::Plain => {}
        TickStep::Beat => rest.put.extend_from_slice(&plan.keepalive)?,
        TickStep::Expired(_) => rest.put.extend_from_slice(&plan.end)?,
    }
    Ok(())
}

/// Makes a step: messages are said and told, each side sends, a segment arrives at each, and the session reads.
fn step(alloc: Global, session: &mut Session, rest: &mut Rest, plan: &Plan) -> Result<()> {
    match rest.random.below(16) {
        0 => say(alloc, rest, plan)?,
        1 => tell(alloc, session, rest, plan)?,
        2 => pass(session, rest, plan)?,
        _ => {}
    }
    emit(session, rest)?;
    deliver(session, rest)?;
    take(session, &mut rest.put, plan)
}

/// Returns whether the session put what it should have put, and all of it, or its first part, was received.
fn is_right(session: &Session, rest: &Rest, whole: bool) -> bool {
    let received = rest.far.ready();
    let put = rest.put.as_slice();
    session.put_len() as usize == put.len()
        && put.starts_with(received)
        && (!whole || received.len() == put.len() && session.all_acked())
}

/// Runs the exchange of one seed. Returns whether all is right at each move and at the end.
fn exchange(alloc: Global, plan: &Plan, seed: u32) -> Result<bool> {
    let mut session = begin(alloc, plan.opening)?;
    let mut rest = rest_of(alloc, plan, seed)?;
    for count in 0..STEPS {
        step(alloc, &mut session, &mut rest, plan)?;
        if count % MOVE == 0 {
            if !is_right(&session, &rest, false) {
                return Ok(false);
            }
            session = moved(session);
        }
    }
    Ok(is_right(&session, &rest, true))
}

/// Runs the exchanges of a range of seeds, and reports how many are right.
pub fn exchanges(alloc: Global, words: &[&str]) -> Result<String> {
    let (first, end) = (number(words, 1)?, number(words, 2)?);
    let plan = plan_of(alloc, words)?;
    let mut right = 0u32;
    for seed in first..end {
        if exchange(alloc, &plan, seed)? {
            right = right.saturating_add(1);
        }
    }
    Ok(format!(in alloc; "{right} right")?)
}
