//! What the entries of a journal tell of.

use tcp_seq::Way;

/// What an entry of a journal tells of, where the timeline doesn't leave it out. Peerings and grafts go by their numbers, `step` is an
/// index in the script, and `nth` is how many events of the session were before it that added to its story.
#[derive(Clone, Copy, Debug, PartialEq, Eq, Hash)]
pub enum Event {
    /// A prefix was decided.
    Decide,
    /// Another router was told of a prefix.
    Tell,
    /// What another router told of a prefix was heard.
    Hear,
    /// The session of the peering put an UPDATE, got a message, or passed a round.
    Message { peering: u32, nth: usize },
    /// A segment of the peering came to a router that doesn't hold its session.
    Stray { peering: u32 },
    /// The router stored the order of the graft.
    Admit { graft: u32 },
    /// The source refused the graft.
    Refuse { graft: u32 },
    /// The session was frozen for the graft.
    Freeze { graft: u32 },
    /// The session left for its target.
    Leave { graft: u32 },
    /// The session landed at its target.
    Land { graft: u32 },
    /// The target turned the session back.
    TurnBack { graft: u32 },
    /// The session was back at its source.
    Return { graft: u32 },
    /// The source cleared what it kept of the session.
    Clear { graft: u32 },
    /// The target gave word that all routers have heard the routes of the session.
    Confirm { graft: u32 },
    /// The remote said the bytes of a step.
    Say { step: u32 },
    /// The link lost a segment on its way to that side.
    Lose { way: Way },
    /// The link delivered a segment to that side, and will do so once more.
    Repeat { way: Way },
    /// The operator ordered the graft.
    Order { graft: u32 },
    /// The operator began the group of this number, from 1.
    Begin { group: usize },
}

/// An event, with its round and its actor.
#[derive(Clone, Copy, Debug, PartialEq, Eq, Hash)]
pub struct Happening {
    pub round: usize,
    pub actor: u16,
    pub event: Event,
}

/// A moment of a graft.
#[derive(Clone, Copy, Debug, PartialEq, Eq, Hash)]
pub enum Moment {
    /// The operator ordered it.
    Ordered,
    /// Its session was frozen.
    Frozen,
    /// Its session left the source.
    Left,
    /// Its session landed.
    Landed,
}
