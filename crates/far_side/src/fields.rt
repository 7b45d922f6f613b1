//! A far side's fields.

use crate::link::Link;
use actor_configs::SayTable;
use graft_actors::Known;
use graft_edge::{NoMemory, PeeringId, RouterId};
use link_bag::Plan;
use remote_end::Remote;
use tcp_seq::{Segment, Way};

/// The fields of a far side.
#[derive(Drop)]
pub struct Fields {
    /// The laboratory, which is only for proofs.
    pub(crate) known: Known,
    pub(crate) routers: u32,
    pub(crate) peerings: u32,
    pub(crate) peering: PeeringId,
    pub(crate) says: SayTable,
    pub(crate) plan: Plan,
    /// KEEPALIVE interval in turns; 0 for none.
    pub(crate) keepalive_interval: u32,
    pub(crate) remote: Remote,
    pub(crate) homeward: Link,
    pub(crate) remoteward: Link,
    /// The router that the link points at, and the graft by which it was last pointed.
    pub(crate) pointer: RouterId,
    pub(crate) followed: u32,
    /// The number of turns made.
    pub(crate) turns: u32,
    /// The number of KEEPALIVEs said at the interval, and the turn of the last one.
    pub(crate) keepalives: u32,
    pub(crate) last_keepalive: u32,
}

impl Fields {
    ghost use Rattle.std.specs.Prelude.{◌≡◌, ◌<◌, ◌+◌, length, Some, IfOk, OnOk, slice_get};
    ghost use Rattle.far_side.specs.declared.link.InLink.{InLink};
    ghost use Rattle.far_side.specs.Links.{aged, removed};
    ghost use Rattle.far_side.specs.Parts.{link_to, with_link};

    /// Returns the link to one side.
    pub(crate) fn link(&self, way: Way) -> &Link
        ensures { result.now ≡ link_to self.now way }
    {
        match way {
            Way::Home => &self.homeward,
            Way::Remote => &self.remoteward,
        }
    }

    /// Keeps the segment at an index of the link to one side for another turn. Returns the index of the next segment.
    pub(crate) fn keep(&mut self, way: Way, index: u32) -> Result<u32, NoMemory>
        requires { index < length (link_to self.old way).plans }
        ensures next { IfOk result (λ next. next ≡ index + 1) }
        ensures kept { OnOk result ((x : InLink) → slice_get (link_to self.old way).plans index ≡ Some x
            → self.new ≡ with_link self.old way (aged index x (link_to self.old way))) }
    {
        match way {
            Way::Home => self.homeward.keep(index),
            Way::Remote => self.remoteward.keep(index),
        }
    }

    /// Removes the segment at an index of the link to one side, and returns it.
    pub(crate) fn remove(&mut self, way: Way, index: u32) -> Segment
        requires { index < length (link_to self.old way).plans }
        ensures there { index < length (link_to self.old way).segments }
        ensures removed { self.new ≡ with_link self.old way (removed index (link_to self.old way)) }
    {
        match way {
            Way::Home => self.homeward.remove(index),
            Way::Remote => self.remoteward.remove(index),
        }
    }
}
