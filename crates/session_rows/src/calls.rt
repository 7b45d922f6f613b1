//! Calls of a session whose conditions are tested first.

ghost use Rattle.std.specs.Prelude.{◌≡◌, ◌≤◌, []};
ghost use Rattle.bgp_story.specs.Legal.{IsOneWay, is_wide};
ghost use Rattle.session_value.specs.Sessions.{peering_of};

use crate::texts::capabilities;
use crate::update::{announcement_of, is_new};
use anyhow::{Result, bail};
use bgp_session::{OfferStop, Session, TickStep};
use bgp_types::{SessionState, Update};
use graft_edge::PeeringId;
use row_harness::{number, word};
use session_value::SessionConfig;
use std::alloc::Global;
use tcp_end::{Arrival, End};
use tcp_seq::{Segment, Seq, Way};

/// The initial sequence number of the remote.
pub const THEIRS: u32 = 5_000;

/// How a session begins: its initial sequence number, whether it offers four-octet AS numbers, whether its OPEN has the
/// capability of IPv4 unicast, and its hold time.
#[derive(Clone, Copy, Debug)]
pub struct Opening {
    pub first: u32,
    pub offered: bool,
    pub unicast: bool,
    pub hold: u32,
}

impl Opening {
    /// Reads the opening that a row says from an index on.
    pub fn read(words: &[&str], index: usize) -> Result<Opening>
        requires { index ≤ 3 }
    {
        let (offered, unicast) = capabilities(word(words, index + 1))?;
        Ok(Opening {
            first: number(words, index)?,
            offered,
            unicast,
            hold: number(words, index + 2)?,
        })
    }
}

/// Returns a session of home AS 65000 with a remote of AS 65001.
pub fn begin(alloc: Global, opening: Opening) -> Result<Session> {
    let hold = opening.hold;
    if hold > 65_535 || hold == 1 || hold == 2 {
        bail!("a hold time is 0, or 3 to 65535 seconds");
    }
    let session = Session::begin(
        alloc,
        SessionConfig {
            peering: PeeringId(3),
            home_as: 65_000,
            identifier: 0x0AFF_0001,
            remote_as: 65_001,
            offered: opening.offered,
            unicast: opening.unicast,
            home_hold: hold as u16,
            remote_address: 0xC000_0201,
            local_address: 0xC000_0202,
            send_first: Seq(opening.first),
            receive_first: Seq(THEIRS),
            import: None,
            export: None,
        },
    )?;
    Ok(session)
}

/// Returns the remote's endpoint.
pub fn remote(alloc: Global, opening: Opening) -> Result<End> {
    let end = End::new(
        alloc,
        Way::Home,
        PeeringId(3),
        Seq(THEIRS),
        Seq(opening.first),
    )?;
    Ok(end)
}

/// Lets a segment arrive at the session.
pub fn arrive(session: &mut Session, segment: &Segment) -> Result<Arrival> {
    let config = session.config();
    if segment.peering != config.peering || segment.way != Way::Home {
        bail!("a segment of another connection");
    }
    if segment.bytes.len() >= 65_536
        || !segment.is_in_streams(config.receive_first, config.send_first)
    {
        bail!("a segment of a longer stream");
    }
    Ok(session.arrive(segment)?)
}

/// Lets a segment arrive at the remote.
pub fn reach(end: &mut End, segment: &Segment) -> Result<Arrival> {
    if segment.peering != end.peering() || segment.way == end.way() {
        bail!("a segment of another connection");
    }
    if segment.bytes.len() >= 65_536 {
        bail!("a segment that is too long");
    }
    Ok(end.arrive(segment)?)
}

/// Puts an UPDATE on the session, of prefixes that it hasn't told yet.
fn put(session: &mut Session, update: Update) -> Result<Result<(), OfferStop>>
    requires one_way { IsOneWay update (is_wide (peering_of session.old.session.config) session.old.session.story) }
    requires announces { update.withdrawn ≡ [] }
{
    if session.state() != SessionState::Established {
        bail!("an established session");
    }
    if !is_new(session.told(), update.nlri.as_slice()) {
        bail!("prefixes that weren't told");
    }
    Ok(session.offer(update))
}

/// Puts on the session the UPDATE that octets spell.
pub fn offer(alloc: Global, session: &mut Session, octets: &[u8]) -> Result<Result<(), OfferStop>> {
    let update = announcement_of(alloc, octets, session.wide())?;
    put(session, update)
}

/// Lets a round pass.
pub fn tick(session: &mut Session, round: u32) -> Result<TickStep> {
    if !session.may_pass(round) {
        bail!("a round that may pass");
    }
    Ok(session.tick(round)?)
}

/// Returns the session after a move, if it is established, or else unmoved.
pub fn moved(session: Session) -> Session {
    if session.state() != SessionState::Established {
        return session;
    }
    session.freeze().leave().land()
}
