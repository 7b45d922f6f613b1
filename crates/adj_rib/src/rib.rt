//! Routes of a session, and how an UPDATE changes them.

ghost use Rattle.std.specs.Prelude.{◌≡◌, option_copied, IfOk, OnOk};
ghost use Rattle.std.specs.FinMap as map;
ghost use Rattle.bgp_types.specs.Tables.{first_above};
ghost use Rattle.bgp_story.specs.Readings.{apply};
ghost use Rattle.adj_rib.specs.Changes.{Changed};

use crate::changes::{AttrsTable, announce, in_order, with_room, withdraw_all};
use bgp_types::{NoMemory, Prefix, PrefixList, SharedAttrs, Table, Update};
use prefix_trie::TrieTable;
use std::alloc::Global;
use std::marker::Model;

/// The routes that were heard and not withdrawn. Those that were announced together share their attributes.
#[derive(Drop)]
pub struct AdjRib {
    alloc: Global,
    routes: AttrsTable,
}

impl Model for AdjRib {
    ghost use Rattle.std.specs.FinMap as map;
    ghost use Rattle.bgp_types.specs.Tables.{coded_prefix};
    ghost use Rattle.bgp_types.specs.contracts.attrs.Attrs as attrs;
    ghost use Rattle.bgp_story.specs.Readings.{Routes};

    ghost Value = { Routes };

    ghost coded = { map.code coded_prefix attrs.the_row.coded };

    ghost view = { λ rib. rib.routes.contents };
}

impl AdjRib {
    /// Returns a table of no routes.
    pub fn new(alloc: Global) -> AdjRib
        ensures { result ≡ map.empty }
    {
        AdjRib {
            alloc,
            routes: TrieTable::new(alloc),
        }
    }

    /// Removes the routes that an UPDATE withdraws, sets those that it announces, and returns the
    /// prefixes whose routes changed, in ascending order. A prefix that it both withdraws and announces
    /// counts as announced (RFC 4271, section 4.3). It sorts the prefixes of the UPDATE, and makes a
    /// descent of at most 33 steps for each, however many routes there are. If memory runs out, the
    /// routes of some of the prefixes may have changed.
    pub fn apply(&mut self, update: &Update) -> Result<PrefixList, NoMemory>
        ensures routes { OnOk result (self.new ≡ apply self.old update.now) }
        ensures changed { IfOk result (λ prefixes. Changed self.old self.new prefixes) }
    {
        let mut changed = with_room(self.alloc, update.nlri.len())?;
        withdraw_all(self.alloc, &mut self.routes, update, &mut changed)?;
        if let Some(attrs) = &update.attrs {
            announce(
                &mut self.routes,
                update.nlri.as_slice(),
                attrs,
                &mut changed,
            )?;
        }
        Ok(in_order(changed))
    }

    /// Returns the route of a prefix.
    pub fn get(&self, prefix: Prefix) -> Option<&SharedAttrs>
        ensures { option_copied result ≡ map.get self.now prefix }
    {
        self.routes.get(prefix)
    }

    /// Removes all routes.
    pub fn clear(&mut self)
        ensures { self.new ≡ map.empty }
    {
        self.routes = TrieTable::new(self.alloc);
    }

    /// Returns the least prefix with a route that is above another, or the least of all for `None`.
    pub fn next_after(&self, prefix: Option<Prefix>) -> Option<Prefix>
        ensures { result ≡ first_above prefix (map.keys self.now) }
    {
        self.routes.next_after(prefix)
    }

    /// Returns the prefixes that have routes, in ascending order. It visits each of them once, and
    /// allocates once.
    pub fn prefixes(&self) -> Result<PrefixList, NoMemory>
        ensures { IfOk result (λ prefixes. prefixes ≡ map.keys self.now) }
    {
        self.routes.prefixes()
    }

    /// Returns the number of routes.
    pub fn len(&self) -> usize
        ensures { result ≡ map.len self.now }
    {
        self.routes.len()
    }
}
