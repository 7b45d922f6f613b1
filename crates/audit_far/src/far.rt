//! The far side of a peering.

ghost use Rattle.std.specs.Prelude.{◌≡◌, ◌↔◌, [], IsTrue, IfOk};
ghost use Rattle.graft_steps.specs.declared.rest.Pending.{Pending};
ghost use Rattle.settled_check.specs.Left.{LeftAtFar};
ghost use Rattle.audit_far.specs.Parts.{far_part, FarInvariant};

use actor_configs::{FarConfig, SayTable};
use graft_actors::Known;
use graft_edge::{NoMemory, PeeringId, RouterId};
use link_bag::Bag;
use remote_end::Remote;
use std::alloc::Global;
use tcp_seq::Segment;

/// The far side of a peering: the remote's end of the connection, the segments that the link holds each way, and the
/// router that it points at. Nothing is planned: what happens to a segment is what the journal says.
#[derive(Drop)]
pub struct AuditedFar {
    /// The laboratory, which is only for proofs.
    pub(crate) known: Known,
    pub(crate) routers: u32,
    pub(crate) peering: PeeringId,
    pub(crate) says: SayTable,
    /// KEEPALIVE interval in rounds; 0 for none.
    pub(crate) keepalive_interval: u32,
    pub(crate) remote: Remote,
    pub(crate) homeward: Bag,
    pub(crate) remoteward: Bag,
    /// The router that the link points at, and the graft by which it was last pointed.
    pub(crate) pointer: RouterId,
    pub(crate) followed: u32,
    /// The number of KEEPALIVEs said at the interval, and the round of the last one.
    pub(crate) keepalives: u32,
    pub(crate) last_keepalive: u32,
}

impl AuditedFar {
    ghost use Rattle.std.specs.Prelude.{slice_get};
    ghost use Rattle.graft_model.specs.First.{first_far};
    ghost use Rattle.actor_configs.specs.Fars.{IsFarConfigOf};

    /// Returns a far side that begins with this configuration, in its laboratory: the remote has said its opening, and
    /// the link is empty.
    pub fn new(alloc: Global, known: Known, config: FarConfig) -> Result<AuditedFar, NoMemory>
        requires { IsFarConfigOf known.setup config }
        ensures setup { IfOk result (λ far. far.known.setup ≡ known.setup) }
        ensures peering { IfOk result (λ far. far.peering ≡ config.peering) }
        ensures first { IfOk result (λ far. far_part far ≡ first_far (slice_get known.setup.peerings config.peering.0)) }
        ensures sound { IfOk result FarInvariant }
    {
        let FarConfig {
            routers,
            peering,
            pointer,
            send_first,
            receive_first,
            opening,
            says,
            beat: keepalive_interval,
            ..
        } = config;
        Ok(AuditedFar {
            known,
            routers,
            peering,
            says: SayTable::new(alloc, says)?,
            keepalive_interval,
            remote: Remote::new(alloc, peering, send_first, receive_first, opening)?,
            homeward: Bag::new(alloc),
            remoteward: Bag::new(alloc),
            pointer,
            followed: 0,
            keepalives: 0,
            last_keepalive: 0,
        })
    }

    /// Returns the segments in the link on their way to the routers, in the order in which they went in.
    pub fn homeward(&self) -> &[Segment]
        ensures { result.now ≡ self.now.homeward }
    {
        self.homeward.as_slice()
    }

    /// Returns the segments in the link on their way to the remote, in the order in which they went in.
    pub fn remoteward(&self) -> &[Segment]
        ensures { result.now ≡ self.now.remoteward }
    {
        self.remoteward.as_slice()
    }

    /// Returns whether no segment is in the link.
    fn is_link_empty(&self) -> bool
        ensures { IsTrue result ↔ ((self.now.homeward ≡ []) × (self.now.remoteward ≡ [])) }
    {
        self.homeward.is_empty() && self.remoteward.is_empty()
    }

    /// Returns whether the far side has nothing left to do: no segment is in the link, and the remote knows that all
    /// that it said was received.
    pub fn is_at_rest(&self) -> bool
        requires { FarInvariant self.now }
        ensures { IsTrue result ↔ ((x : Pending) → ¬ LeftAtFar self.now.peering.0 (far_part self.now) x) }
    {
        self.is_link_empty() && self.remote.acked() as usize == self.remote.said().len()
    }
}
