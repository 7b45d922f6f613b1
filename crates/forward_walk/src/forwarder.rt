//! The tables of all routers, and walks over them.

ghost use Rattle.std.specs.Prelude.{◌≡◌, ◌<◌, [], map, IfOk, MatchOption};
ghost use Rattle.forward_walk.specs.declared.walk.Walk.{Walk};
ghost use Rattle.forward_walk.specs.Tables.{map_of, forward_map_of, tables_in};
ghost use Rattle.forward_walk.specs.Walks.{HasEntry, HasNoEntryFor, WalksTo};

use crate::entry::{ForwardEntry, ForwardTables};
use crate::walk::Walk;
use bgp_types::{From, Items, NoMemory, RouterId, Table};
use prefix_trie::TrieTable;
use std::alloc::Global;
use std::marker::Model;

/// The number of router numbers, since a number is one octet.
const ROUTER_NUMBERS: usize = 256;

/// The tables of all routers, each as a trie.
#[derive(Drop)]
pub struct Forwarder {
    tries: Items<TrieTable<From>>,
}

impl Model for Forwarder {
    ghost use Rattle.std.specs.Prelude.{List};
    ghost use Rattle.std.specs.Coded.{coded_list};
    ghost use Rattle.std.specs.FinMap.{code};
    ghost use Rattle.bgp_types.specs.Tables.{coded_prefix};
    ghost use Rattle.bgp_types.specs.contracts.rank.From as from_type;
    ghost use Rattle.forward_walk.specs.Tables.{ForwardMap, tables_in};

    ghost Value = { List ForwardMap };

    ghost coded = { coded_list (code coded_prefix from_type.the_row.coded) };

    ghost view = { λ f. tables_in f.tries };
}

/// Returns a table of these entries. They are set from the last to the first, so that the first entry
/// counts if a prefix occurs twice.
fn trie_of(alloc: Global, entries: &[ForwardEntry]) -> Result<TrieTable<From>, NoMemory>
    ensures { IfOk result (λ trie. trie.contents ≡ map_of entries.now) }
{
    let mut trie = TrieTable::new(alloc);
    for entry in entries.iter().rev() {
        let Ok(_) = trie.set(entry.prefix, entry.from) else {
            return Err(NoMemory);
        };
    }
    Ok(trie)
}

/// Returns the entry of a router's table for an address: that of its longest prefix that covers the
/// address. A router that has no table has no entry.
fn entry_at(tries: &[TrieTable<From>], at: RouterId, address: u32) -> Option<ForwardEntry>
    ensures { MatchOption result (HasNoEntryFor (forward_map_of (tables_in tries.now) at) address)
        (λ e. HasEntry (forward_map_of (tables_in tries.now) at) address e.prefix e.from) }
{
    let table = tries.get(usize::from(at.0))?;
    let prefix = table.longest_match(address)?;
    let from = *table.get(prefix)?;
    Some(ForwardEntry { prefix, from })
}

/// Returns the index of a router's number among all router numbers.
fn index_of(number: u8) -> usize
    ensures is { result ≡ number }
    ensures fits { result < ROUTER_NUMBERS }
{
    usize::from(number)
}

impl Forwarder {
    /// Makes a trie of each table.
    pub fn new(alloc: Global, tables: &ForwardTables) -> Result<Forwarder, NoMemory>
        ensures { IfOk result (λ forwarder. forwarder ≡ map map_of tables.now) }
    {
        let mut tries = Items::from_vec(Vec::with_capacity(alloc, tables.len())?);
        for table in tables.iter() {
            tries.push(trie_of(alloc, table)?)?;
        }
        Ok(Forwarder { tries })
    }

    /// Follows a packet to an address, from router to router, until it ends or reaches a router again.
    /// It ends without a route at a router that has no table. At each router it makes two descents in
    /// the trie. It allocates nothing.
    pub fn walk(&self, from: RouterId, address: u32) -> Walk
        ensures ends { WalksTo self.now address [] from result }
        ensures only { (other : Walk) → WalksTo self.now address [] from other → other ≡ result }
    {
        let mut met = [false; ROUTER_NUMBERS];
        let mut at = from;
        loop {
            let index = index_of(at.0);
            if met[index] {
                return Walk::Loop(at);
            }
            met[index] = true;
            let Some(entry) = entry_at(&self.tries, at, address) else {
                return Walk::NoRoute(at);
            };
            match entry.from {
                From::Own => return Walk::Local(at, entry.prefix),
                From::Peering(peering) => return Walk::Leaves(at, peering, entry.prefix),
                From::Router(next) => at = next,
            }
        }
    }
}
