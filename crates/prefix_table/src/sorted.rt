//! A table of prefixes as a sorted vector, in which look-ups use binary search.

ghost use Rattle.std.specs.Prelude.{◌≡◌, ◌+◌, ◌≤◌, ℕ, T, IsOk, IsSome, IfOk, IfErr, OnOk, OnErr, option_copied};
ghost use Rattle.std.specs.FinMap as map;
ghost use Rattle.bgp_types.specs.Tables.{prefix_cmp, first_above};
ghost use Rattle.prefix_table.specs.Indices.{IsIndexOfPrefix, IsGapForPrefix, first_prefix};

use bgp_types::{Prefix, Table};
use std::alloc::Global;
use std::marker::Model;
use std::mem;

/// Prefixes with their values, in ascending order. A change takes time in proportion to the number of
/// greater prefixes.
#[derive(Drop)]
pub struct SortedTable<V> {
    entries: Vec<(Prefix, V)>,
}

impl<V> Model for SortedTable<V> {
    ghost use Rattle.std.specs.Prelude.{T};
    ghost use Rattle.std.specs.FinMap as map;
    ghost use Rattle.bgp_types.specs.Tables.{prefix_cmp, coded_prefix};

    ghost Value = { map.FinMap prefix_cmp V };

    ghost coded = { map.code coded_prefix V.code };

    ghost view = { λ t. map.from_sorted t.entries.items };

    ghost invariant = { λ t. T (map.is_sorted prefix_cmp t.entries.items) };
}

impl<V> SortedTable<V> {
    /// Returns an empty table. It allocates nothing before the first prefix.
    pub fn new(alloc: Global) -> SortedTable<V>
        ensures { result ≡ map.empty }
    {
        SortedTable {
            entries: Vec::new(alloc),
        }
    }
}

impl<V: Drop> Table<V> for SortedTable<V> {
    ghost contents = { λ t. t };

    ghost room = { λ t. 0 };

    fn get(&self, prefix: Prefix) -> Option<&V> {
        match index_of(&self.entries, prefix) {
            Ok(at) => Some(&self.entries[at].1),
            Err(_) => None,
        }
    }

    fn set(&mut self, prefix: Prefix, value: V) -> Result<Option<V>, V> {
        match index_of(&self.entries, prefix) {
            Ok(at) => Ok(Some(mem::replace(&mut self.entries[at].1, value))),
            Err(at) => {
                if let Err(failed) = self.entries.insert(at, (prefix, value)) {
                    return Err(failed.value.1);
                }
                Ok(None)
            }
        }
    }

    fn remove(&mut self, prefix: Prefix) -> Option<V> {
        match index_of(&self.entries, prefix) {
            Ok(at) => Some(self.entries.remove(at).1),
            Err(_) => None,
        }
    }

    fn next_after(&self, prefix: Option<Prefix>) -> Option<Prefix> {
        let Some(prefix) = prefix else {
            return first(&self.entries);
        };
        match index_of(&self.entries, prefix) {
            Ok(at) => first(&self.entries[at + 1..]),
            Err(at) => first(&self.entries[at..]),
        }
    }

    fn len(&self) -> usize {
        self.entries.as_slice().len()
    }
}

/// Returns the index of a prefix among entries in ascending order of prefix, or as the error the index
/// where it would be inserted. It uses binary search.
pub fn index_of<V>(entries: &[(Prefix, V)], prefix: Prefix) -> Result<usize, usize>
    requires { T (map.is_sorted prefix_cmp entries.now) }
    ensures found { IfOk result (IsIndexOfPrefix entries.now prefix) }
    ensures absent { IfErr result (IsGapForPrefix entries.now prefix) }
{
    entries.binary_search_by_key(&prefix, |entry| entry.0)
}

fn first<V>(entries: &[(Prefix, V)]) -> Option<Prefix>
    ensures { result ≡ first_prefix entries.now }
{
    match entries.first() {
        Some(entry) => Some(entry.0),
        None => None,
    }
}
