//! A table of prefixes as a trie.

ghost use Rattle.std.specs.Prelude.{◌≡◌, ◌+◌, ◌≤◌, ℕ, None, IfSome, IfNone, IsOk, IsSome, IfOk, IfErr, OnOk, OnErr, option_copied};
ghost use Rattle.std.specs.FinMap as map;
ghost use Rattle.std.specs.Fn.{FnOnceReturnsAtMut};
ghost use Rattle.prefix_trie.specs.Changes.{ChangesAt};
ghost use Rattle.bgp_types.specs.Prefixes.{prefix_of};
ghost use Rattle.bgp_types.specs.Tables.{prefix_cmp, first_above};
ghost use Rattle.prefix_trie.specs.Longest.{LongestOf};

use crate::node::{NOWHERE, first, list, longest, next};
use crate::tree::{Tree, change, clear, get, put, reserve, take};
use bgp_types::{Items, NoMemory, Prefix, PrefixList, SpareTable, Table};
use std::alloc::Global;
use std::marker::Model;

/// Prefixes with their values. The nodes stand in one list and name each other by their indices in it. A
/// removal keeps the indices that it frees for later prefixes; it allocates nothing.
///
/// On a descent from the root each prefix is longer than the one before, so a descent visits at most 33
/// nodes, however many prefixes there are. `get`, `set`, `change`, `remove` and `longest_match` make
/// one descent, and `next_after` makes at most one more, from a node of the first. `prefixes` visits
/// each node once. `len` and `spare` read a number. `reserve` takes a step for each node that it makes.
#[derive(Drop)]
pub struct TrieTable<V> {
    alloc: Global,
    tree: Tree<V>,
    len: usize,
}

impl<V> Model for TrieTable<V> {
    ghost use Rattle.std.specs.Prelude.{◌≡◌, ◌/◌, length};
    ghost use Rattle.std.specs.FinMap as map;
    ghost use Rattle.bgp_types.specs.Tables.{prefix_cmp};
    ghost use Rattle.prefix_trie.specs.Table.{TableValue, coded_table};

    ghost Value = { TableValue V };

    ghost coded = { coded_table V.code };

    ghost use Rattle.prefix_trie.specs.Trees.{entries, IsTrie};

    ghost view = { λ t. record { contents = map.from_sorted {R = prefix_cmp} (entries t.tree); room = length t.tree.free.items / 2 } };

    ghost invariant = { λ t. record { trie : IsTrie t.tree; len : t.len ≡ length (entries t.tree) } };
}

impl<V: Drop> TrieTable<V> {
    /// Returns an empty table. It allocates nothing before the first prefix.
    pub fn new(alloc: Global) -> TrieTable<V>
        ensures contents { result.contents ≡ map.empty }
        ensures room { result.room ≡ 0 }
    {
        TrieTable {
            alloc,
            tree: Tree {
                nodes: Vec::new(alloc),
                values: Vec::new(alloc),
                free: Vec::new(alloc),
                root: NOWHERE,
            },
            len: 0,
        }
    }

    /// Returns the longest prefix that covers an address, or `None` if none does (RFC 1812, section
    /// 5.2.4.3).
    pub fn longest_match(&self, address: u32) -> Option<Prefix>
        ensures { LongestOf (λ p. IsSome (map.get self.now.contents p)) (prefix_of 32 address) result }
    {
        match Prefix::new(address, 32) {
            Some(host) => longest(&self.tree.nodes, &self.tree.values, self.tree.root, host),
            None => unreachable!(),
        }
    }

    /// Returns its prefixes in ascending order, in one allocation.
    pub fn prefixes(&self) -> Result<PrefixList, NoMemory>
        ensures { IfOk result (λ prefixes. prefixes ≡ map.keys self.now.contents) }
    {
        let mut prefixes = Items::from_vec(Vec::with_capacity(self.alloc, self.len)?);
        list(
            &self.tree.nodes,
            &self.tree.values,
            self.tree.root,
            &mut prefixes,
        )?;
        Ok(prefixes)
    }

    /// Changes the value of a prefix in place, in one descent, and returns what the change returns. If
    /// the prefix has no value, nothing changes and the result is `None`. It allocates nothing.
    pub fn change<R, F: FnOnce(&mut V) -> R>(&mut self, prefix: Prefix, edit: F) -> Option<R>
        requires { F.IsAlwaysCallable edit }
        ensures changed { IfSome result (λ r. ChangesAt (FnOnceReturnsAtMut F.FnOnce edit) prefix r self.old.contents self.new.contents) }
        ensures none { IfNone result (map.get self.old.contents prefix ≡ None) }
        ensures same { IfNone result (self.new.contents ≡ self.old.contents) }
        ensures room { self.new.room ≡ self.old.room }
    {
        change(&mut self.tree, prefix, edit)
    }

    /// Removes all prefixes, and keeps their nodes as `remove` does. It allocates nothing.
    pub fn clear(&mut self)
        ensures contents { self.new.contents ≡ map.empty }
        ensures room { self.old.room ≤ self.new.room }
    {
        clear(&mut self.tree);
        self.len = 0;
    }
}

impl<V: Drop> Table<V> for TrieTable<V> {
    ghost contents = { λ t. t.contents };

    ghost room = { λ t. t.room };

    fn get(&self, prefix: Prefix) -> Option<&V> {
        get(&self.tree, prefix)
    }

    fn set(&mut self, prefix: Prefix, value: V) -> Result<Option<V>, V> {
        prove!(prefix.len() <= 32);
        let before = put(&mut self.tree, prefix, value)?;
        if before.is_none() {
            self.len += 1;
        }
        Ok(before)
    }

    /// It allocates nothing.
    fn remove(&mut self, prefix: Prefix) -> Option<V> {
        prove!(prefix.len() <= 32);
        let taken = take(&mut self.tree, prefix)?;
        self.len -= 1;
        Some(taken)
    }

    fn next_after(&self, prefix: Option<Prefix>) -> Option<Prefix> {
        match prefix {
            None => first(&self.tree.nodes, &self.tree.values, self.tree.root),
            Some(prefix) => next(&self.tree.nodes, &self.tree.values, self.tree.root, prefix),
        }
    }

    fn len(&self) -> usize {
        self.len
    }
}

impl<V: Drop> SpareTable<V> for TrieTable<V> {
    fn reserve(&mut self, more: usize) -> Result<(), NoMemory> {
        reserve(&mut self.tree, more)
    }

    fn spare(&self) -> usize {
        self.tree.free.len() / 2
    }

    fn set_reserved(&mut self, prefix: Prefix, value: V) -> Option<V> {
        match self.set(prefix, value) {
            Ok(before) => before,
            Err(_) => unreachable!(),
        }
    }
}
