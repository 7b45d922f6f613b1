//! Costs between routers, and planned faults.

ghost use Rattle.std.specs.Prelude.{◌≡◌, IfOk, List, ℕ, map};
ghost use Rattle.toml.specs.View.{table_view};
ghost use Rattle.lab_tables.specs.Peerings.{cost_ends, cost_rest, cost_flaw as cost_flaw_lem, cost_of as cost_of_lem, fault_keys as fault_keys_lem};
ghost use Rattle.lab_tables.specs.Peerings.{after_keys as after_keys_lem, is_lost as is_lost_lem, strays_out as strays_out_lem};
ghost use Rattle.lab_tables.specs.Peerings.{fault_flaw as fault_flaw_lem, fault_of as fault_of_lem};

use crate::input::CostInput;
use crate::name_index::NameIndex;
use crate::words::{fault_kind_at, way_at};
use bgp_types::{NoMemory, PeeringId, RouterId};
use lab_keys::{
    Flaw, Key, Kind, Spot, TableAt, TableKind, TableReader, flaw_if, keys_flaw, number_or,
    stray_flaw, text_at,
};
use link_bag::{Fault, FaultKind};
use std::alloc::Global;
use tcp_seq::Way;
use toml::Table;

/// Returns the keys of a cost: its two ends, and the cost.
pub(crate) fn cost_keys() -> [Key; 3]
    ensures { result ≡ cost_ends ++ cost_rest }
{
    [
        Key::required("from", Kind::Name),
        Key::required("to", Kind::Name),
        Key::required(
            "cost",
            Kind::Number {
                low: 0,
                high: u32::from(u16::MAX),
            },
        ),
    ]
}

/// Returns the first flaw of the cost at index `i`.
fn cost_flaw<'a>(i: usize, table: &'a Table) -> Option<Flaw<'a>>
    ensures { result ≡ cost_flaw_lem i (table_view table.now) }
{
    let at = TableAt::Cost(i);
    let rows = cost_keys();
    let keys = &rows[..];
    if let Some(flaw) = keys_flaw(at, &keys[..2], table) {
        return Some(flaw);
    }
    if text_at("to", table) == text_at("from", table) {
        return Some(Flaw::Shape(Spot::of(at, "to")));
    }
    if let Some(flaw) = keys_flaw(at, &keys[2..], table) {
        return Some(flaw);
    }
    stray_flaw(at, keys, table)
}

/// The array of costs of an input.
#[derive(Drop)]
pub(crate) struct CostTables;

impl TableKind for CostTables {
    ghost flaw_of = { λ _. cost_flaw_lem };

    fn flaw<'a>(&self, i: usize, table: &'a Table) -> Option<Flaw<'a>> {
        cost_flaw(i, table)
    }
}

/// Cost reader, for these routers.
#[derive(Drop)]
pub(crate) struct CostReader<'p> {
    pub routers: &'p NameIndex,
}

impl<'p> TableReader<CostInput> for CostReader<'p> {
    ghost value_of = { λ r. cost_of_lem r.routers.now };

    fn value(&self, _alloc: Global, table: &Table) -> Result<CostInput, NoMemory> {
        Ok(CostInput {
            from: RouterId(self.routers.number_of(text_at("from", table))),
            to: RouterId(self.routers.number_of(text_at("to", table))),
            cost: number_or(0, "cost", table),
        })
    }
}

/// Returns the key `after`. A lost segment has no later time.
fn after_key(is_lost: bool) -> Key
    ensures { result ∷ [] ≡ after_keys_lem is_lost }
{
    if is_lost {
        Key::optional("after", Kind::Misplaced)
    } else {
        Key::required("after", Kind::Number { low: 1, high: 6 })
    }
}

/// Returns the keys of a planned fault, given whether it loses a segment.
pub(crate) fn fault_keys(is_lost: bool) -> [Key; 5]
    ensures { result ≡ fault_keys_lem ++ after_keys_lem is_lost }
{
    [
        Key::required("peering", Kind::Name),
        Key::required("way", Kind::Way),
        Key::required(
            "segment",
            Kind::Number {
                low: 1,
                high: 1_000_000,
            },
        ),
        Key::required("kind", Kind::FaultKind),
        after_key(is_lost),
    ]
}

/// Returns whether a fault loses its segment.
pub(crate) fn is_lost(kind: FaultKind) -> bool
    ensures { result ≡ is_lost_lem kind }
{
    matches!(kind, FaultKind::Lose)
}

/// Returns whether a fault makes a copy stray that goes to the remote. Only what goes home can stray.
fn strays_out(kind: FaultKind, way: Way) -> bool
    ensures { result ≡ strays_out_lem kind way }
{
    matches!((kind, way), (FaultKind::Stray, Way::Remote))
}

/// Returns the first flaw of the planned fault at index `i`.
fn fault_flaw<'a>(i: usize, table: &'a Table) -> Option<Flaw<'a>>
    ensures { result ≡ fault_flaw_lem i (table_view table.now) }
{
    let at = TableAt::Fault(i);
    let kind = fault_kind_at(table);
    let rows = fault_keys(is_lost(kind));
    let keys = &rows[..];
    if let Some(flaw) = keys_flaw(at, &keys[..4], table) {
        return Some(flaw);
    }
    if strays_out(kind, way_at(table)) {
        return Some(Flaw::Shape(Spot::of(at, "kind")));
    }
    if let Some(flaw) = keys_flaw(at, &keys[4..], table) {
        return Some(flaw);
    }
    stray_flaw(at, keys, table)
}

/// The array of planned faults of an input.
#[derive(Drop)]
pub(crate) struct FaultTables;

impl TableKind for FaultTables {
    ghost flaw_of = { λ _. fault_flaw_lem };

    fn flaw<'a>(&self, i: usize, table: &'a Table) -> Option<Flaw<'a>> {
        fault_flaw(i, table)
    }
}

/// Returns the planned fault that a table stands for.
pub fn fault_of(peerings: &NameIndex, table: &Table) -> Fault
    ensures { result ≡ fault_of_lem peerings.now (table_view table.now) }
{
    Fault {
        peering: PeeringId(peerings.number_of(text_at("peering", table))),
        way: way_at(table),
        segment: number_or(0, "segment", table),
        kind: fault_kind_at(table),
        after: number_or(0, "after", table),
    }
}

/// Reader of planned faults, for these peerings.
#[derive(Drop)]
pub(crate) struct FaultReader<'p> {
    pub peerings: &'p NameIndex,
}

impl<'p> TableReader<Fault> for FaultReader<'p> {
    ghost value_of = { λ r. fault_of_lem r.peerings.now };

    fn value(&self, _alloc: Global, table: &Table) -> Result<Fault, NoMemory> {
        Ok(fault_of(self.peerings, table))
    }
}

ghost use Rattle.std.specs.Prelude.{◌∷◌, ◌++◌, []};
