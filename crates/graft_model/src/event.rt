//! The events of the world, each with its arguments.

use bgp_types::Prefix;
use tcp_seq::Way;

/// An event of a home router. Peerings, routers and grafts are named by their numbers.
#[derive(Clone, Copy, Debug, PartialEq, Eq, Hash)]
pub enum RouterEvent {
    /// The next UPDATE is put on a session, with this many prefixes; with 0, all that is due on it was told already.
    Put { peering: u32, count: u32 },
    /// `len` bytes of a session's stream go to the far side, from the offset `from` on.
    Emit { peering: u32, from: u32, len: u32 },
    /// The next segment of a far side arrives at its session.
    Arrive { peering: u32 },
    /// The next segment of a far side finds no live session.
    Stray { peering: u32 },
    /// A session reads a message or a faulty header.
    Got { peering: u32 },
    /// The best route to a prefix is decided.
    Decide { prefix: Prefix },
    /// Another router is told the best route to a prefix.
    Tell { router: u32, prefix: Prefix },
    /// What another router told about a prefix is heard.
    Hear { router: u32 },
    /// The order of a graft is stored.
    Admit { graft: u32 },
    /// The source refuses a graft.
    Refuse { graft: u32 },
    /// A session is frozen for a graft.
    Freeze { graft: u32 },
    /// A frozen session leaves for its target.
    Leave { graft: u32 },
    /// A session that moves here from this router lands.
    Land { router: u32 },
    /// A session that moves here from this router is sent back.
    TurnBack { router: u32 },
    /// A session that this router refused is back.
    Return { router: u32 },
    /// This router, the target, says that a session landed there: its shadow here ends.
    Clear { router: u32 },
    /// A router is asked, for a graft whose session has landed here, whether it has heard what it was told.
    Ask { graft: u32, router: u32 },
    /// This router asked, and receives the answer that all was heard.
    Answer { router: u32 },
    /// The answer of this router is counted, if a graft waits for it.
    Collect { router: u32 },
    /// The source of a graft is told that its session has landed here, and that all other routers have heard its routes.
    Confirm { graft: u32 },
    /// A round of one second passes on a session.
    Tick { peering: u32, round: u32 },
}

/// An event of a far side.
#[derive(Clone, Copy, Debug, PartialEq, Eq, Hash)]
pub enum FarEvent {
    /// The remote says the bytes of a step of the script, counted from 0.
    Say { step: u32 },
    /// `len` bytes of the remote's stream go into the link, from the offset `from` on.
    Send { from: u32, len: u32 },
    /// The next segment of a router goes into the link.
    Take { router: u32 },
    /// The segment at this index of the link is delivered to a router. If `keep` is true, the link will deliver it once
    /// more.
    Pass { index: u32, keep: bool, router: u32 },
    /// The segment at this index of the link is delivered to the remote. If `keep` is true, the link will deliver it
    /// once more.
    Reach { index: u32, keep: bool },
    /// The segment at this index of the link, on its way to that side, is lost.
    Lose { way: Way, index: u32 },
    /// The link is pointed at a router, by word from that router.
    Point { router: u32 },
    /// The remote's timer says a KEEPALIVE in this round.
    Beat { round: u32 },
}

/// An event of the operator.
#[derive(Clone, Copy, Debug, PartialEq, Eq, Hash)]
pub enum OperatorEvent {
    /// A say or a graft of a step of the script is ordered. Steps are counted from 0; `graft` is the graft's number if
    /// an evacuate step makes it, and 0 otherwise.
    Order { step: u32, graft: u32 },
    /// A router's report of how a graft ended goes into the log.
    Note { router: u32 },
    /// The next group of the script begins.
    Go,
}

/// An event of an actor.
#[derive(Clone, Copy, Debug, PartialEq, Eq, Hash)]
pub enum ActorEvent {
    OfRouter(RouterEvent),
    OfFar(FarEvent),
    OfOperator(OperatorEvent),
}
