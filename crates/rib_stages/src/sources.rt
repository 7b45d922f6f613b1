//! Tables of routes, one for each number of a peering or a router.

ghost use Rattle.std.specs.Prelude.{◌≡◌, ◌<◌, Some, IfOk, OnOk, OnErr, option_copied, replicate};
ghost use Rattle.std.specs.FinMap as map;
ghost use Rattle.bgp_types.specs.Tables.{first_above};
ghost use Rattle.session_value.specs.Points.{at};
ghost use Rattle.rib_stages.specs.Values.{contents_of, tables_of};
ghost use Rattle.rib_stages.specs.Ranks.{MarksRank, MarksAtMost};

use crate::ranks::Choices;
use bgp_types::{From, NoMemory, Prefix, PrefixList, Rank, SpareTable, Table};
use prefix_trie::TrieTable;
use std::alloc::Global;
use std::marker::Model;

/// The number of values of an octet.
const COUNT: u32 = 256;

/// A table for each number that an octet can have.
#[derive(Drop)]
pub(crate) struct Sources<V> {
    tables: Vec<TrieTable<V>>,
}

impl<V> Model for Sources<V> {
    ghost use Rattle.std.specs.Prelude.{◌≡◌, List, length};
    ghost use Rattle.std.specs.Coded.{coded_list};
    ghost use Rattle.prefix_trie.specs.Table.{TableValue, coded_table};

    ghost Value = { List (TableValue V) };

    ghost coded = { coded_list (coded_table V.code) };

    ghost view = { λ s. s.tables.items };

    ghost invariant = { λ s. length s.tables.items ≡ 256 };
}

impl<V: Drop> Sources<V> {
    /// Returns tables without a prefix.
    pub fn new(alloc: Global) -> Result<Sources<V>, NoMemory>
        ensures { IfOk result (λ s. contents_of s ≡ replicate 256 map.empty) }
    {
        let mut tables = Vec::new(alloc);
        for _n in 0..COUNT {
            tables.push(TrieTable::new(alloc))?;
        }
        Ok(Sources { tables })
    }

    /// Returns the value of a prefix in a table.
    pub fn get(&self, n: u8, prefix: Prefix) -> Option<&V>
        ensures { option_copied result ≡ map.get (tables_of self.now n) prefix }
    {
        let table = &self.tables[usize::from(n)];
        table.get(prefix)
    }

    /// Returns the least prefix of a table that is above another, or the least of all for `None`.
    pub fn next_after(&self, n: u8, after: Option<Prefix>) -> Option<Prefix>
        ensures { result ≡ first_above after (map.keys (tables_of self.now n)) }
    {
        let table = &self.tables[usize::from(n)];
        table.next_after(after)
    }

    /// Returns the prefixes of a table, in ascending order.
    pub fn prefixes(&self, n: u8) -> Result<PrefixList, NoMemory>
        ensures { IfOk result (λ prefixes. prefixes ≡ map.keys (tables_of self.now n)) }
    {
        let table = &self.tables[usize::from(n)];
        table.prefixes()
    }

    /// Sets the value of a prefix in a table, which has this rank from that source, and marks the
    /// prefix as dirty. If memory runs out, the prefix may be dirty, and nothing else changes.
    pub fn put(
        &mut self,
        n: u8,
        prefix: Prefix,
        value: V,
        choices: &mut Choices,
        from: From,
        rank: Rank,
    ) -> Result<(), NoMemory>
        ensures octet { n < 256 }
        ensures table { OnOk result (tables_of self.new ≡ at (tables_of self.old) n (map.insert (tables_of self.old n) prefix value)) }
        ensures rank { OnOk result (MarksRank choices.old prefix from (Some rank) choices.new) }
        ensures same { OnErr result (tables_of self.new ≡ tables_of self.old) }
        ensures marked { OnErr result (MarksAtMost choices.old prefix choices.new) }
    {
        let table = &mut self.tables[usize::from(n)];
        table.reserve(1)?;
        choices.set_rank(prefix, from, rank)?;
        table.set_reserved(prefix, value);
        Ok(())
    }

    /// Removes a prefix from a table.
    pub fn remove(&mut self, n: u8, prefix: Prefix)
        ensures octet { n < 256 }
        ensures removed { tables_of self.new ≡ at (tables_of self.old) n (map.remove (tables_of self.old n) prefix) }
    {
        let table = &mut self.tables[usize::from(n)];
        table.remove(prefix);
    }
}
