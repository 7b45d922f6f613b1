//! Events on tables: deciding, telling other routers, and hearing from them (RFC 4271, sections 9.1.2 and 9.1.3).

ghost use Rattle.std.specs.Prelude.{ℕ, ◌≡◌, ◌<◌, ◌∷◌, false, length, IfNone, IfOk, IfSome, slice_get};
ghost use Rattle.graft_steps.specs.declared.item.Item.TheVariants as items;
ghost use Rattle.session_value.specs.Sets.{has};
ghost use Rattle.rib_stages.specs.Values.{table_at};
ghost use Rattle.graft_model.specs.Parts.{Place};
ghost use Rattle.graft_model.specs.Setups.{routers_in, peerings_in};
ghost use Rattle.graft_model.specs.declared.event.RouterEvent.TheVariants.{Decide, Tell, Hear};
ghost use Rattle.graft_actors.specs.Actors.{Router};
ghost use Rattle.audit_channels.specs.Channels.{parcels_in};
ghost use Rattle.audit_tables.specs.Parts.{TablesInvariant};
ghost use Rattle.audit_tables.specs.Decides.{AreUp, DecidesTables, DecidesTablesTaking, ForgetsUnlessRefused};
ghost use Rattle.audit_tables.specs.Dues.{is_telling};

use crate::sets::{due_to_others, due_where_up};
use crate::tables::Tables;
use audit_channels::Channel;
use audit_ruling::Ruling;
use bgp_types::{From, NoMemory, Prefix, RouterId};
use graft_steps::Item;
use rib_stages::InEntry;

/// Returns whether a telling is next.
fn is_telling_next(channel: &Channel) -> bool
    ensures { result ≡ is_telling (slice_get (parcels_in channel.now) 0) }
{
    matches!(channel.first(), Some(Item::Told { .. }))
}

/// Takes the telling that is next, if one is.
fn take_telling(channel: &mut Channel) -> Option<InEntry>
    ensures some { IfSome result (λ telling. parcels_in channel.old ≡ items.Told telling.prefix telling.route ∷ parcels_in channel.new) }
    ensures none { IfNone result
        ((is_telling (slice_get (parcels_in channel.old) 0) ≡ false) × (parcels_in channel.new ≡ parcels_in channel.old)) }
{
    if !is_telling_next(channel) {
        return None;
    }
    match channel.take()? {
        Item::Told { prefix, route } => Some(InEntry {
            prefix,
            route,
            identifier: 0,
            address: 0,
        }),
        _ => unreachable!(),
    }
}

impl Tables {
    /// Decides a prefix, if it is dirty. If another route is the best one then, it is due to each other router and on
    /// each peering for which `up` says that its session here is established.
    pub fn decide(&mut self, prefix: Prefix, up: &[bool]) -> Result<Ruling, NoMemory>
        requires sound { TablesInvariant self.old }
        requires all { length up.now ≡ peerings_in self.old.known.setup }
        ensures decides { (places : ℕ → Place) → AreUp up.now places → IfOk result (λ ruling. DecidesTables (Decide prefix) places self.old ruling self.new) }
        ensures known { IfOk result (λ ruling. ForgetsUnlessRefused ruling self.old self.new) }
    {
        if !self.rib.is_dirty(prefix) {
            return Ok(Ruling::Refused);
        }
        self.forget_all();
        if !self.rib.decide(prefix)? {
            return Ok(Ruling::Silent);
        }
        due_to_others(&mut self.due_in, self.number, prefix)?;
        due_where_up(&mut self.due_out, up, prefix)?;
        Ok(Ruling::Silent)
    }

    /// Returns whether a prefix is due to a router.
    fn is_due_to(&self, q: usize, prefix: Prefix) -> bool
        ensures { result ≡ has (table_at self.now.due_in q) prefix }
    {
        q < self.due_in.len() && self.due_in.set(q).contains(prefix)
    }

    /// Tells a router the best route to a prefix, if that is due there and not dirty.
    pub fn tell(&mut self, q: u32, prefix: Prefix) -> Result<Ruling, NoMemory>
        requires { TablesInvariant self.old }
        ensures decides { (places : ℕ → Place) → IfOk result (λ ruling. DecidesTables (Tell q prefix) places self.old ruling self.new) }
        ensures known { IfOk result (λ ruling. self.new.pending.items ≡ self.old.pending.items) }
    {
        let to = q as usize;
        if !self.is_due_to(to, prefix) {
            return Ok(Ruling::Refused);
        }
        if self.rib.is_dirty(prefix) {
            return Ok(Ruling::Refused);
        }
        let route = self.rib.tell_in(prefix)?;
        self.due_in.remove(to, prefix);
        Ok(Ruling::Sends {
            to,
            item: Item::Told { prefix, route },
        })
    }

    /// Hears what another router tells next.
    pub fn hear(&mut self, q: RouterId, channel: &mut Channel) -> Result<Ruling, NoMemory>
        requires sound { TablesInvariant self.old }
        requires there { q.0 < routers_in self.old.known.setup }
        ensures decides { (places : ℕ → Place) → IfOk result (λ ruling.
            DecidesTablesTaking (Hear q.0) (Router q.0) places self.old (parcels_in channel.old) ruling self.new (parcels_in channel.new)) }
        ensures known { IfOk result (λ ruling. ForgetsUnlessRefused ruling self.old self.new) }
    {
        let Some(telling) = take_telling(channel) else {
            return Ok(Ruling::Refused);
        };
        self.forget_all();
        self.rib.set_in(From::Router(q), telling)?;
        Ok(Ruling::Silent)
    }
}
