//! The names of planned faults.

ghost use Rattle.std.specs.Prelude.{◌≡◌, [], IfOk, map, codes};
ghost use Rattle.toml.specs.View.{table_view};
ghost use Rattle.lab_keys.specs.Kinds.{first_of};
ghost use Rattle.lab_keys.specs.Values.{text_at as text_at_lem};
ghost use Rattle.lab_input.specs.Names.{each_after, fault_named as fault_named_lem};

use crate::bad::BadInput;
use crate::names::unknown;
use crate::told::{first, repeated_if};
use bgp_types::{NoMemory, PeeringId};
use lab_keys::text_at;
use lab_tables::{NameIndex, fault_of};
use link_bag::Fault;
use std::alloc::Global;
use std::collections::HashSet;
use tcp_seq::Way;
use toml::Table;

/// A segment, by its peering, the side that it goes to, and its number.
#[derive(Clone, Copy, Debug, PartialEq, Eq, Hash)]
struct SegmentKey {
    peering: PeeringId,
    way: Way,
    segment: u32,
}

/// Returns the segment of a fault.
fn segment_of(fault: &Fault) -> SegmentKey
    ensures { result ≡ record { peering = fault.now.peering; way = fault.now.way; segment = fault.now.segment } }
{
    SegmentKey {
        peering: fault.peering,
        way: fault.way,
        segment: fault.segment,
    }
}

/// Returns the first wrong name of a planned fault, or that an earlier fault has the same segment.
fn fault_named(
    alloc: Global,
    peerings: &NameIndex,
    again: bool,
    table: &Table,
) -> Result<Option<BadInput>, NoMemory>
    ensures { IfOk result (λ bad. bad ≡ first_of (unknown_lem peerings.now (text_at_lem (codes "peering") (table_view table.now))
        ∷ repeated_if_lem again (text_at_lem (codes "peering") (table_view table.now)) ∷ [])) }
{
    let peering = text_at("peering", table);
    let name = unknown(alloc, peerings, peering)?;
    let segment = repeated_if(alloc, again, peering)?;
    Ok(first(name, first(segment, None)))
}

/// Returns the first wrong name of planned faults.
pub(crate) fn faults_named(
    alloc: Global,
    peerings: &NameIndex,
    tables: &[&Table],
) -> Result<Option<BadInput>, NoMemory>
    ensures { IfOk result (λ bad. bad ≡ each_after (fault_named_lem peerings.now) [] (map (λ u. table_view u.now) tables.now)) }
{
    let mut seen = HashSet::new(alloc);
    for table in tables {
        let fault = fault_of(peerings, table);
        let is_new = seen.insert(segment_of(&fault))?;
        let found = fault_named(alloc, peerings, !is_new, table)?;
        match found {
            Some(bad) => return Ok(Some(bad)),
            None => {}
        }
    }
    Ok(None)
}

ghost use Rattle.std.specs.Prelude.{◌∷◌};
ghost use Rattle.lab_input.specs.Names.{unknown as unknown_lem, repeated_if as repeated_if_lem};
