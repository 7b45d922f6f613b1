//! Best routes and dirty prefixes.

ghost use Rattle.std.specs.Prelude.{◌≡◌, ◌≢◌, Some, None, option_copied, is_some, IsOk, IsSome, IfOk, OnOk, OnErr, MatchBool};
ghost use Rattle.std.specs.FinMap as map;
ghost use Rattle.bgp_types.specs.Tables.{first_above};
ghost use Rattle.loc_rib.specs.Values.{with_best, DifferIf};

use bgp_types::{From, NoMemory, Prefix, PrefixList, Route, Table, TryCopy};
use prefix_set::PrefixSet;
use prefix_trie::TrieTable;
use route_policy::Best;
use std::alloc::Global;
use std::marker::Model;

/// The best route to each prefix that has one, and the dirty prefixes.
#[derive(Drop)]
pub struct LocRib {
    best: TrieTable<Best>,
    dirty: PrefixSet,
}

impl Model for LocRib {
    ghost use Rattle.loc_rib.specs.Values.{LocValue, coded_loc};
    ghost use Rattle.route_policy.specs.contracts.best.Best as best_type;

    ghost Value = { LocValue };

    ghost coded = { coded_loc best_type.the_row.coded };

    ghost view = { λ rib. record { best = rib.best.contents; dirty = rib.dirty } };
}

/// Whether the two differ.
#[tactic(auto, using(bgp_types::proofs::Equality::route_equal))]
fn are_apart(a: Option<&Best>, b: Option<&Best>) -> bool
    ensures { DifferIf (option_copied a.entry) (option_copied b.entry) result }
{
    match (a, b) {
        (None, None) => false,
        (Some(a), Some(b)) => a.from != b.from || a.route != b.route,
        _ => true,
    }
}

/// Whether a best route is this one.
#[tactic(auto, using(bgp_types::proofs::Equality::route_equal))]
fn is_this(best: Option<&Best>, from: From, route: &Route) -> bool
    ensures { MatchBool result (option_copied best.entry ≡ Some (record { from = from; route = route.now }))
        (option_copied best.entry ≢ Some (record { from = from; route = route.now })) }
{
    match best {
        Some(best) => best.from == from && best.route == *route,
        None => false,
    }
}

impl LocRib {
    /// Returns a table of no route and no dirty prefix.
    pub fn new(alloc: Global) -> LocRib
        ensures { result ≡ record { best = map.empty; dirty = map.empty } }
    {
        LocRib {
            best: TrieTable::new(alloc),
            dirty: PrefixSet::new(alloc),
        }
    }

    /// Returns the best route to a prefix.
    pub fn get(&self, prefix: Prefix) -> Option<&Best>
        ensures { option_copied result ≡ map.get self.now.best prefix }
    {
        self.best.get(prefix)
    }

    /// Sets the best route to a prefix, or removes it for `None`, and returns whether it changed. If
    /// memory runs out, nothing changes.
    pub fn set(&mut self, prefix: Prefix, best: Option<Best>) -> Result<bool, NoMemory>
        ensures changed { IfOk result (λ changed. DifferIf best (map.get self.old.best prefix) changed) }
        ensures ok { OnOk result (self.new ≡ record self.old { best = with_best self.old.best prefix best }) }
        ensures err { OnErr result (self.new ≡ self.old) }
        // Neither removing a route nor replacing one needs memory.
        ensures gone { best ≡ None → IsOk result }
        ensures present { IsSome (map.get self.old.best prefix) → IsOk result }
    {
        let changed = are_apart(best.as_ref(), self.best.get(prefix));
        match best {
            Some(best) => match self.best.set(prefix, best) {
                Ok(_) => Ok(changed),
                Err(_) => Err(NoMemory),
            },
            None => {
                self.best.remove(prefix);
                Ok(changed)
            }
        }
    }

    /// Sets a copy of this route as the best route to a prefix, unless it is that already, and returns
    /// whether it changed. If memory runs out, nothing changes.
    #[tactic(auto, using(prefix_set::proofs::Sets::inserted_again))]
    pub fn set_copy(&mut self, prefix: Prefix, from: From, route: &Route) -> Result<bool, NoMemory>
        ensures changed { IfOk result (λ changed. DifferIf (Some (record { from = from; route = route.now })) (map.get self.old.best prefix) changed) }
        ensures ok { OnOk result (self.new ≡ record self.old { best = with_best self.old.best prefix (Some (record { from = from; route = route.now })) }) }
        ensures err { OnErr result (self.new ≡ self.old) }
    {
        if is_this(self.best.get(prefix), from, route) {
            return Ok(false);
        }
        let best = Best {
            from,
            route: route.copy()?,
        };
        match self.best.set(prefix, best) {
            Ok(_) => Ok(true),
            Err(_) => Err(NoMemory),
        }
    }

    /// Marks a prefix as dirty. If memory runs out, nothing changes.
    pub fn mark(&mut self, prefix: Prefix) -> Result<(), NoMemory>
        ensures ok { OnOk result (self.new ≡ record self.old { dirty = map.insert self.old.dirty prefix tt }) }
        ensures err { OnErr result (self.new ≡ self.old) }
        ensures present { IsSome (map.get self.old.dirty prefix) → IsOk result }
    {
        self.dirty.insert(prefix)
    }

    /// Whether a prefix is dirty.
    pub fn is_dirty(&self, prefix: Prefix) -> bool
        ensures { result ≡ is_some (map.get self.now.dirty prefix) }
    {
        self.dirty.contains(prefix)
    }

    /// Returns the least dirty prefix.
    pub fn next_dirty(&self) -> Option<Prefix>
        ensures { result ≡ first_above None (map.keys self.now.dirty) }
    {
        self.dirty.first()
    }

    /// Clears a prefix's dirty mark.
    pub fn settle(&mut self, prefix: Prefix)
        ensures { self.new ≡ record self.old { dirty = map.remove self.old.dirty prefix } }
    {
        self.dirty.remove(prefix);
    }

    /// Returns the least prefix with a best route that is above another, or the least of all for
    /// `None`.
    pub fn next_after(&self, prefix: Option<Prefix>) -> Option<Prefix>
        ensures { result ≡ first_above prefix (map.keys self.now.best) }
    {
        self.best.next_after(prefix)
    }

    /// Returns the prefixes with a best route, in ascending order. It visits each of them once, and
    /// allocates once.
    pub fn prefixes(&self) -> Result<PrefixList, NoMemory>
        ensures { IfOk result (λ prefixes. prefixes ≡ map.keys self.now.best) }
    {
        self.best.prefixes()
    }
}
