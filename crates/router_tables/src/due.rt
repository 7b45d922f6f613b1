//! Prefixes that are due to be told, as sets by number.

ghost use Rattle.std.specs.Prelude.{ℕ, ◌≡◌, ◌<◌, None, length, if◌then◌else◌, IfOk, OnOk, OnErr};
ghost use Rattle.std.specs.FinMap as map;
ghost use Rattle.bgp_types.specs.Tables.{first_above};
ghost use Rattle.session_value.specs.Points.{at};
ghost use Rattle.rib_stages.specs.Values.{table_at};

use bgp_types::{NoMemory, Prefix};
use prefix_set::PrefixSet;
use std::alloc::Global;
use std::marker::Model;

/// Sets of prefixes by number.
#[derive(Drop)]
pub struct DueSets {
    sets: Vec<PrefixSet>,
}

impl Model for DueSets {
    ghost use Rattle.std.specs.Prelude.{List};
    ghost use Rattle.std.specs.Coded.{coded_list};
    ghost use Rattle.std.specs.FinMap as map;
    ghost use base.Stored.{coded_unit};
    ghost use Rattle.bgp_types.specs.Tables.{coded_prefix};
    ghost use Rattle.session_value.specs.Sets.{Prefixes};

    ghost Value = { List Prefixes };

    ghost coded = { coded_list (map.code coded_prefix coded_unit) };

    ghost view = { λ due. due.sets.items };
}

impl DueSets {
    /// Returns `count` empty sets.
    pub fn new(alloc: Global, count: usize) -> Result<DueSets, NoMemory>
        ensures count { IfOk result (λ due. length due ≡ count) }
        ensures empty { IfOk result (λ due. (n : ℕ) → table_at due n ≡ map.empty) }
    {
        let mut sets = Vec::new(alloc);
        for _n in 0..count {
            sets.push(PrefixSet::new(alloc))?;
        }
        Ok(DueSets { sets })
    }

    /// Returns the number of sets.
    pub fn len(&self) -> usize
        ensures { result ≡ length self.now }
    {
        self.sets.len()
    }

    /// Returns set `n`, which must exist.
    pub fn set(&self, n: usize) -> &PrefixSet
        requires { n < length self.now }
        ensures { result.now ≡ table_at self.now n }
    {
        &self.sets[n]
    }

    /// Returns the least prefix of set `n`.
    pub fn first(&self, n: usize) -> Option<Prefix>
        requires { n < length self.now }
        ensures { result ≡ first_above None (map.keys (table_at self.now n)) }
    {
        self.sets[n].first()
    }

    /// Adds a prefix to set `n`. If memory runs out, nothing changes.
    pub fn add(&mut self, n: usize, prefix: Prefix) -> Result<(), NoMemory>
        requires { n < length self.old }
        ensures length { length self.new ≡ length self.old }
        ensures ok { OnOk result (table_at self.new ≡ at (table_at self.old) n (map.insert (table_at self.old n) prefix tt)) }
        ensures err { OnErr result (table_at self.new ≡ table_at self.old) }
    {
        self.sets[n].insert(prefix)
    }

    /// Removes a prefix from set `n`.
    pub fn remove(&mut self, n: usize, prefix: Prefix)
        requires { n < length self.old }
        ensures length { length self.new ≡ length self.old }
        ensures removed { table_at self.new ≡ at (table_at self.old) n (map.remove (table_at self.old n) prefix) }
    {
        self.sets[n].remove(prefix);
    }

    /// Replaces set `n`.
    pub fn put(&mut self, n: usize, set: PrefixSet)
        requires { n < length self.old }
        ensures length { length self.new ≡ length self.old }
        ensures put { table_at self.new ≡ at (table_at self.old) n set }
    {
        self.sets[n] = set;
    }

    /// Empties set `n`. It takes no memory.
    pub fn clear(&mut self, n: usize)
        requires { n < length self.old }
        ensures length { length self.new ≡ length self.old }
        ensures cleared { table_at self.new ≡ at (table_at self.old) n map.empty }
    {
        self.sets[n].clear();
    }
}

/// Adds a prefix to set `n` if `is_due`.
pub fn add_where(sets: &mut DueSets, n: usize, prefix: Prefix, is_due: bool) -> Result<(), NoMemory>
    requires { n < length sets.old }
    ensures length { OnOk result (length sets.new ≡ length sets.old) }
    ensures added { OnOk result (table_at sets.new ≡ at (table_at sets.old) n
        (if is_due then map.insert (table_at sets.old n) prefix tt else table_at sets.old n)) }
{
    if is_due { sets.add(n, prefix) } else { Ok(()) }
}
