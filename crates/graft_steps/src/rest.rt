//! What is left to do before the laboratory is at rest.

ghost use Rattle.std.specs.Prelude.{◌≡◌};
ghost use Rattle.std.specs.Cmp.{IsTotalOrder};
ghost use Rattle.std.specs.FinMap.{IsAntisymmetric};
ghost use Rattle.graft_steps.specs.Pendings.{pending_cmp};

use graft_edge::{PeeringId, RouterId};

/// Something that is still to be done. The variants are ordered by kind, in the order here, and within
/// a kind by their numbers; the first in this order is the one that a report names.
#[derive(Clone, Copy, Debug, PartialEq, Eq, PartialOrd, Ord, Hash)]
pub enum Pending {
    /// A step of the script's present group isn't issued.
    Script,
    /// The graft of this number hasn't ended.
    Graft(u32),
    /// An item is in flight from the first actor to the second.
    Channel(u16, u16),
    /// A segment is on the link of this peering.
    Bag(PeeringId),
    /// Bytes of this peering's session, in either direction, aren't acknowledged, or a message that was
    /// received isn't read.
    Stream(PeeringId),
    /// This router has a dirty prefix.
    Dirty(RouterId),
    /// A prefix is due from the first router to the second.
    DueIn(RouterId, RouterId),
    /// A prefix is due on the session of this peering.
    DueOut(PeeringId),
}

/// What a router still has to do: of each kind the lowest number, if there is any.
#[derive(Clone, Copy, Debug, PartialEq, Eq, Hash)]
pub struct RouterRest {
    /// The number of the router.
    pub number: RouterId,
    /// Whether a prefix is dirty.
    pub dirty: bool,
    /// A router to which a prefix is due.
    pub due_in: Option<RouterId>,
    /// A peering on whose session a prefix is due.
    pub due_out: Option<PeeringId>,
    /// A graft that is ordered here, or whose session is frozen here, or was sent away from here and
    /// hasn't ended, or has landed here and whose source isn't told yet.
    pub graft: Option<u32>,
    /// A peering whose session is held here and has put bytes that aren't acknowledged, or isn't
    /// closed and has unread bytes that begin with a whole message or a faulty header.
    pub stream: Option<PeeringId>,
}

/// What a far side still has to do.
#[derive(Clone, Copy, Debug, PartialEq, Eq, Hash)]
pub struct FarRest {
    /// The peering whose far side it is.
    pub peering: PeeringId,
    /// The number of segments on the link, both ways.
    pub bag: usize,
    /// Whether bytes that the remote sent aren't acknowledged.
    pub unacked: bool,
}

/// What the operator still has to do.
#[derive(Clone, Copy, Debug, PartialEq, Eq, Hash)]
pub struct OperatorRest {
    /// Whether a step of the present group isn't issued.
    pub unissued: bool,
    /// The lowest number of a graft that was issued and hasn't ended.
    pub graft: Option<u32>,
}

/// Pending things are in a total order: by kind, and then by their numbers. Of two different ones one
/// is before the other.
pub fn pending_order()
    ensures derived { (p : Pending) (q : Pending) → ⟦<Pending as Ord>⟧.cmp p q ≡ pending_cmp p q }
    ensures total { IsTotalOrder pending_cmp }
    ensures exact { IsAntisymmetric pending_cmp }
{}
