//! The far side of a peering.

ghost use Rattle.std.specs.Prelude.{◌≡◌, false};
ghost use Rattle.far_side.specs.Parts.{FarSideInvariant};
ghost use Rattle.far_side.specs.FieldProps.{FarSideInvariant-prop-if};

use crate::fields::Fields;
use crate::link::Link;
use crate::{take, turn};
use actor_configs::{FarConfig, SayTable};
use graft_actors::Known;
use graft_edge::{NoMemory, RouterId};
use graft_steps::{FarRest, Item};
use remote_end::Remote;
use ring_net::Post;
use std::alloc::Global;
use tcp_seq::Way;

/// The far side of a peering: a scripted remote, and the link between it and the routers, which loses, repeats and
/// holds back segments and lets them stray, by plan.
#[derive(Drop)]
pub struct Far {
    fields: Fields,
    // Whether memory ran out. From then on no call does anything.
    has_failed: bool,
    ghost sound: { has_failed ≡ false → FarSideInvariant fields } by { FarSideInvariant-prop-if has_failed fields },
}

impl Far {
    ghost use Rattle.std.specs.Prelude.{◌≡◌, false, OnOk, IfOk};
    ghost use Rattle.ring_net.specs.Posts.{TookItem, Moved, SameEdges};
    ghost use Rattle.tcp_seq.specs.Endpoint.{received_bytes};
    ghost use Rattle.session_value.specs.Sessions.{SessionValue};
    ghost use Rattle.settled_check.specs.Rests.{IsFarRest};
    ghost use Rattle.graft_actors.specs.Acts.{acts};
    ghost use Rattle.far_side.specs.Fars.{far_own_part, part_of_far, peering_in, IsNewFar, took_by_far, turned_by_far};
    ghost use Rattle.actor_configs.specs.Fars.{IsFarConfigOf};

    /// Returns a far side that begins with this configuration, in its laboratory. The remote has said its opening, and
    /// both links are empty.
    pub fn new(alloc: Global, known: Known, config: FarConfig) -> Result<Far, NoMemory>
        requires { IsFarConfigOf known.setup config }
        ensures { IfOk result (IsNewFar known.setup config) }
    {
        let FarConfig {
            routers,
            peerings,
            peering,
            pointer,
            send_first,
            receive_first,
            opening,
            says,
            plan,
            beat: keepalive_interval,
        } = config;
        Ok(Far {
            fields: Fields {
                known,
                routers,
                peerings,
                peering,
                says: SayTable::new(alloc, says)?,
                plan,
                keepalive_interval,
                remote: Remote::new(alloc, peering, send_first, receive_first, opening)?,
                homeward: Link::new(alloc, Way::Home, peering, send_first, receive_first),
                remoteward: Link::new(alloc, Way::Remote, peering, receive_first, send_first),
                pointer,
                followed: 0,
                turns: 0,
                keepalives: 0,
                last_keepalive: 0,
            },
            has_failed: false,
        })
    }

    /// Takes an item that the actor of number `from` sent. It writes one event to the journal, which takes the item. If
    /// it drops the item, it writes an entry of kind 0 instead. These items are dropped: an item that no far side takes
    /// from that actor; a segment of another peering, one on its way home, one with more than 65,535 bytes, or one
    /// whose sequence numbers are outside the streams; and an order to say a step that isn't this remote's, or whose
    /// bytes would take its stream past 1,048,576. Once memory ran out, every take and turn returns `NoMemory`.
    pub fn take<C: Drop>(
        &mut self,
        from: usize,
        item: Item<C>,
        post: &mut Post<Item<C>>,
    ) -> Result<(), NoMemory>
        ensures took { OnOk result
            ((session : C → SessionValue) → TookItem far_own_part (acts session) took_by_far from item self.old post.old self.new post.new) }
        ensures edges { SameEdges post.old post.new }
    {
        if self.has_failed {
            return Err(NoMemory);
        }
        let taken = take::take(&mut self.fields, from, item, post);
        self.has_failed = taken.is_err();
        taken
    }

    /// Delivers from both links as the plan says, makes the retransmission turn, says a KEEPALIVE if one is due, sends
    /// all new slices, and sends the acknowledgement that is owed. Once memory ran out, every take and turn returns
    /// `NoMemory`.
    pub fn turn<C: Drop>(&mut self, post: &mut Post<Item<C>>) -> Result<(), NoMemory>
        ensures turned { OnOk result ((session : C → SessionValue) → Moved far_own_part (acts session) turned_by_far self.old post.old self.new post.new) }
        ensures edges { SameEdges post.old post.new }
    {
        if self.has_failed {
            return Err(NoMemory);
        }
        let turned = turn::turn(&mut self.fields, post);
        self.has_failed = turned.is_err();
        turned
    }

    /// Does nothing at a mark, and returns false.
    pub fn between<C: Drop>(&mut self, _post: &mut Post<Item<C>>) -> Result<bool, NoMemory>
        ensures nothing { IfOk result (λ made. made ≡ false) }
        ensures same { (self.new ≡ self.old) × (_post.new ≡ _post.old) }
    {
        Ok(false)
    }

    /// Returns all bytes that the remote said.
    pub fn said(&self) -> &[u8]
        ensures { result.now ≡ (part_of_far self.now).end.stream }
    {
        self.fields.remote.said()
    }

    /// Returns all bytes that the remote received in order.
    pub fn received(&self) -> &[u8]
        ensures { result.now ≡ received_bytes (part_of_far self.now).end }
    {
        self.fields.remote.received()
    }

    /// Returns the router that the link points at.
    pub fn pointer(&self) -> RouterId
        ensures { result.0 ≡ (part_of_far self.now).pointer }
    {
        self.fields.pointer
    }

    /// Returns what is left to do.
    pub fn rest(&self) -> FarRest
        ensures { IsFarRest (peering_in self.now) (part_of_far self.now) result }
    {
        FarRest {
            peering: self.fields.peering,
            bag: self.fields.homeward.len() + self.fields.remoteward.len(),
            unacked: self.fields.remote.acked() as usize != self.fields.remote.said().len(),
        }
    }
}
