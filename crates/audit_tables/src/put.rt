//! What is to be told on a session (RFC 4271, section 9.2).

ghost use Rattle.std.specs.Prelude.{ℕ, ◌≡◌, ◌≢◌, ◌<◌, ◌↔◌, List, Some, IsTrue, IfOk, IfSome, IfNone, OnOk, length, not, false, true};
ghost use Rattle.std.specs.List.{list_any};
ghost use Rattle.bgp_types.specs.Prefixes.{PrefixValue, same_prefix};
ghost use Rattle.session_value.specs.Sets.{has};
ghost use Rattle.graft_model.specs.Parts.{Place};
ghost use Rattle.graft_model.specs.Sets.{Drops};
ghost use Rattle.graft_model.specs.Setups.{peerings_in};
ghost use Rattle.graft_model.specs.Decisions.{to_tell};
ghost use Rattle.graft_model.specs.RouterRows.{IsToTell, WaitsOnPeering};
ghost use Rattle.audit_tables.specs.Changes.{ChangesDue, KeepsTables, PutsFirstAlike};
ghost use Rattle.audit_tables.specs.Groups.{AreFirstAlike, AreGroups, LosesFirst};
ghost use Rattle.audit_tables.specs.Parts.{TablesInvariant, IsForgotten, KnowsWhatToTell, due_at, part_with, pending_at};

use crate::pending::Pending;
use crate::sets::{drop_clean, drop_listed};
use crate::tables::Tables;
use bgp_session::Session;
use bgp_types::{NoMemory, Prefix};
use rib_stages::OutView;
use router_tables::policy_of;
use update_plan::{Batch, groups};

/// Removes the first `count` prefixes that are to be told the same as the least of all from what is known to be to
/// tell, if something is known: they were told.
fn tell_known(known: &mut Option<Pending>, count: usize) -> Result<(), NoMemory>
    ensures { OnOk result ((now : Pending) → known.new ≡ Some now
        → (was : Pending) × (known.old ≡ Some was) × LosesFirst count was.groups.contents now.groups.contents) }
{
    match known {
        Some(pending) => pending.was_told(count),
        None => Ok(()),
    }
}

impl Tables {
    /// Finds what is to be told on the session of a peering, each due prefix visited once.
    fn find(&self, p: usize, session: &Session) -> Result<Pending, NoMemory>
        requires sound { TablesInvariant self.now }
        requires there { p < peerings_in self.now.known.setup }
        ensures { (places : ℕ → Place) → IfOk result (λ pending. AreGroups
            (IsToTell self.now.known.setup self.now.number.0 (part_with places self.now) p session.now.session)
            (to_tell self.now.known.setup self.now.number.0 (part_with places self.now) session.now.session) pending.groups.contents) }
    {
        let config = session.config();
        let view = OutView {
            peering: config.peering,
            remote_as: config.remote_as,
            local_address: config.local_address,
            export: policy_of(&self.policies, &config.export),
        };
        let due = self.due_out.set(p);
        let batches = groups(self.alloc, &self.rib, due, session.told(), &view)?;
        Pending::new(self.alloc, batches)
    }

    /// Finds what is to be told on the session of a peering, unless that is known.
    pub fn know(&mut self, p: usize, session: &Session) -> Result<(), NoMemory>
        requires sound { TablesInvariant self.old }
        requires there { p < peerings_in self.old.known.setup }
        ensures same { OnOk result (self.new ≡ record self.old { pending = self.new.pending }) }
        ensures keeps { OnOk result (KeepsTables self.old self.new) }
        ensures knows { (places : ℕ → Place) → KnowsWhatToTell self.old places p session.now.session
            → OnOk result (KnowsWhatToTell self.new places p session.now.session × ((pending : Pending) × (pending_at self.new p ≡ Some (Some pending)))) }
        ensures others { OnOk result ((q : ℕ) → q ≢ p → pending_at self.new q ≡ pending_at self.old q) }
    {
        if self.pending[p].is_some() {
            return Ok(());
        }
        let pending = self.find(p, session)?;
        self.pending[p] = Some(pending);
        Ok(())
    }

    /// Returns whether some prefix waits on a peering: it is due there and not dirty.
    pub fn is_waiting(&self, p: usize) -> Result<bool, NoMemory>
        requires sound { TablesInvariant self.now }
        requires there { p < peerings_in self.now.known.setup }
        ensures { (places : ℕ → Place) → IfOk result
            (λ waits. IsTrue waits ↔ ((x : PrefixValue) × WaitsOnPeering (part_with places self.now) p x)) }
    {
        let prefixes = self.due_out.set(p).prefixes()?;
        for prefix in prefixes.iter() {
            if !self.rib.is_dirty(*prefix) {
                return Ok(true);
            }
        }
        Ok(false)
    }

    /// Returns whether nothing is to be told on a peering, of which it is known.
    pub fn is_told(&self, p: usize) -> bool
        requires { (pending : Pending) × (pending_at self.now p ≡ Some (Some pending)) }
        ensures { (places : ℕ → Place) (session : _) → KnowsWhatToTell self.now places p session
            → IsTrue result ↔ ((x : PrefixValue) → ¬ IsToTell self.now.known.setup self.now.number.0 (part_with places self.now) p session x) }
    {
        match &self.pending[p] {
            Some(pending) => pending.is_empty(),
            None => true,
        }
    }

    /// Returns the first `count` prefixes that are to be told the same as the least of all on a peering, of which it is
    /// known, if there are as many.
    pub fn batch(&self, p: usize, count: usize) -> Result<Option<Batch>, NoMemory>
        requires known { (pending : Pending) × (pending_at self.now p ≡ Some (Some pending)) }
        ensures some { (places : ℕ → Place) (session : _) → KnowsWhatToTell self.now places p session
            → IfOk result (λ answer. IfSome answer (λ batch. AreFirstAlike
            (IsToTell self.now.known.setup self.now.number.0 (part_with places self.now) p session)
            (to_tell self.now.known.setup self.now.number.0 (part_with places self.now) session) count batch.attrs batch.prefixes)) }
        ensures none { (places : ℕ → Place) (session : _) → KnowsWhatToTell self.now places p session
            → IfOk result (λ answer. IfNone answer ((attrs : _) (prefixes : List PrefixValue) → ¬ AreFirstAlike
            (IsToTell self.now.known.setup self.now.number.0 (part_with places self.now) p session)
            (to_tell self.now.known.setup self.now.number.0 (part_with places self.now) session) count attrs prefixes)) }
    {
        match &self.pending[p] {
            Some(pending) => pending.batch(count),
            None => Ok(None),
        }
    }

    /// Removes prefixes from what is due on a peering: they were told.
    pub fn was_told(&mut self, p: usize, prefixes: &[Prefix]) -> Result<(), NoMemory>
        requires sound { TablesInvariant self.old }
        requires there { p < peerings_in self.old.known.setup }
        ensures due { OnOk result (Drops (due_at self.old p) (λ x. list_any (same_prefix x) prefixes.now) (due_at self.new p)) }
        ensures changes { OnOk result (ChangesDue p self.old self.new) }
        ensures still { (places : ℕ → Place) (before after : _) → KnowsWhatToTell self.old places p before
            → PutsFirstAlike self.old places p before prefixes.now after → OnOk result (KnowsWhatToTell self.new places p after) }
    {
        drop_listed(&mut self.due_out, p, prefixes);
        tell_known(&mut self.pending[p], prefixes.len())
    }

    /// Removes all that isn't dirty from what is due on a peering.
    pub fn settle(&mut self, p: usize) -> Result<(), NoMemory>
        requires sound { TablesInvariant self.old }
        requires there { p < peerings_in self.old.known.setup }
        ensures due { OnOk result (Drops (due_at self.old p) (λ x. not (has self.old.rib.dirty x)) (due_at self.new p)) }
        ensures changes { OnOk result (ChangesDue p self.old self.new) }
        ensures forgets { OnOk result (IsForgotten p self.new) }
    {
        drop_clean(&mut self.due_out, p, &self.rib)?;
        self.forget(p);
        Ok(())
    }
}
