//! How a graft ends.

use bgp_types::SessionState;
use graft_edge::{Name, NoMemory, TryCopy};

/// Why a graft is refused. The source refuses for one of the first three reasons, and the target for
/// one of the next two; if several hold, the first in this order is given. The operator gives the last
/// one itself. A refused graft leaves the session at its source as it was.
#[derive(Debug, Drop)]
pub enum Refusal {
    /// The target is the source.
    SameRouter,
    /// The session is in this state, which isn't Established.
    NotEstablished(SessionState),
    /// The session has this hold time, of 1 to 29 seconds, which could expire while it moves.
    HoldTooShort(u32),
    /// The target's places for sessions, this many, are taken. A session that it sent away in a graft
    /// that hasn't ended takes its place too.
    RouterFull(u32),
    /// The target has no policy of this name. If it has neither of the peering's two policies, this is
    /// the name of the import policy.
    PolicyMissing(Name),
    /// The router is evacuated, and no other router has a free place for the session.
    NoTarget,
}

/// How a graft ended.
#[derive(Debug, Drop)]
pub enum Outcome {
    /// The target holds the session.
    Accepted,
    /// The source still holds the session, or holds it again.
    Refused(Refusal),
}

impl TryCopy for Refusal {
    fn copy(&self) -> Result<Refusal, NoMemory> {
        match self {
            Refusal::SameRouter => Ok(Refusal::SameRouter),
            Refusal::NotEstablished(state) => Ok(Refusal::NotEstablished(*state)),
            Refusal::HoldTooShort(hold) => Ok(Refusal::HoldTooShort(*hold)),
            Refusal::RouterFull(room) => Ok(Refusal::RouterFull(*room)),
            Refusal::PolicyMissing(name) => Ok(Refusal::PolicyMissing(name.copy()?)),
            Refusal::NoTarget => Ok(Refusal::NoTarget),
        }
    }
}

impl TryCopy for Outcome {
    fn copy(&self) -> Result<Outcome, NoMemory> {
        match self {
            Outcome::Accepted => Ok(Outcome::Accepted),
            Outcome::Refused(refusal) => Ok(Outcome::Refused(refusal.copy()?)),
        }
    }
}
