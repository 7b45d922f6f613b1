//! What is due on a peering.

ghost use Rattle.std.specs.Prelude.{ℕ, ◌≡◌, ◌<◌, IsTrue, ◌↔◌, false, OnOk};
ghost use Rattle.std.specs.FinMap as map;
ghost use Rattle.bgp_types.specs.Prefixes.{PrefixValue};
ghost use Rattle.session_value.specs.Sets.{has};
ghost use Rattle.graft_model.specs.Setups.{peerings_in};
ghost use Rattle.router_tables.specs.Dues.{IsDueAgain, IsDueBest};
ghost use Rattle.rib_stages.specs.Values.{table_at};
ghost use Rattle.audit_tables.specs.Changes.{ChangesDue};
ghost use Rattle.audit_tables.specs.Parts.{IsForgotten, NothingIsLeft, TablesInvariant, due_at};

use crate::sets::are_empty;
use crate::tables::Tables;
use bgp_session::Session;
use bgp_types::NoMemory;
use router_tables::{all_best, due_again};

impl Tables {
    /// Makes all prefixes with a best route due on a peering, whose session is established now, and no others.
    pub fn set_due_best(&mut self, p: usize) -> Result<(), NoMemory>
        requires sound { TablesInvariant self.old }
        requires there { p < peerings_in self.old.known.setup }
        ensures due { OnOk result (IsDueBest self.old.rib.best (due_at self.new p)) }
        ensures changes { OnOk result (ChangesDue p self.old self.new) }
        ensures forgets { OnOk result (IsForgotten p self.new) }
    {
        let due = all_best(self.alloc, &self.rib)?;
        self.due_out.put(p, due);
        self.forget(p);
        Ok(())
    }

    /// Makes all prefixes that were told on a session, or have a best route, due on its peering, and no others.
    pub fn set_due_again(&mut self, p: usize, session: &Session) -> Result<(), NoMemory>
        requires sound { TablesInvariant self.old }
        requires there { p < peerings_in self.old.known.setup }
        ensures due { OnOk result (IsDueAgain session.now.session.adj_rib_out self.old.rib.best (due_at self.new p)) }
        ensures changes { OnOk result (ChangesDue p self.old self.new) }
        ensures forgets { OnOk result (IsForgotten p self.new) }
    {
        let due = due_again(self.alloc, &self.rib, session)?;
        self.due_out.put(p, due);
        self.forget(p);
        Ok(())
    }

    /// Makes nothing due on a peering.
    pub fn clear_due(&mut self, p: usize)
        requires sound { TablesInvariant self.old }
        requires there { p < peerings_in self.old.known.setup }
        ensures due { due_at self.new p ≡ map.empty }
        ensures changes { ChangesDue p self.old self.new }
        ensures forgets { IsForgotten p self.new }
    {
        self.due_out.clear(p);
        self.forget(p);
    }

    /// Returns whether no prefix is dirty.
    pub fn is_clean(&self) -> bool
        ensures { IsTrue result ↔ ((x : PrefixValue) → has self.now.rib.dirty x ≡ false) }
    {
        self.rib.next_dirty().is_none()
    }

    /// Returns whether nothing is due to a router.
    pub fn has_told(&self, q: u32) -> bool
        requires { TablesInvariant self.now }
        ensures { IsTrue result ↔ ((x : PrefixValue) → has (table_at self.now.due_in q) x ≡ false) }
    {
        let q = q as usize;
        q >= self.due_in.len() || self.due_in.first(q).is_none()
    }

    /// Returns whether nothing is due to any router.
    pub fn has_told_all(&self) -> bool
        requires { TablesInvariant self.now }
        ensures { IsTrue result ↔ ((q : ℕ) (x : PrefixValue) → has (table_at self.now.due_in q) x ≡ false) }
    {
        are_empty(&self.due_in)
    }

    /// Returns whether no prefix is dirty, and none is due to a router or on a peering.
    pub fn is_at_rest(&self) -> bool
        requires { TablesInvariant self.now }
        ensures { IsTrue result ↔ NothingIsLeft self.now }
    {
        self.is_clean() && are_empty(&self.due_in) && are_empty(&self.due_out)
    }
}
