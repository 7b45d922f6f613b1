//! What the steps of remotes say.

ghost use Rattle.std.specs.Prelude.{◌≡◌, IfOk, Option, option_map, option_copied};
ghost use Rattle.bgp_types.specs.Prefixes.{once_after};
ghost use Rattle.toml.specs.View.{table_view};
ghost use Rattle.lab_tables.specs.Scripts.{sequence_path, step_ases, attrs_of as attrs_of_lem};
ghost use Rattle.lab_tables.specs.Scripts.{said_prefixes as said_prefixes_lem, said_attrs as said_attrs_lem};

use crate::input::PeeringInput;
use crate::once::each_once;
use crate::words::origin_at;
use bgp_types::{AsList, AsPath, Attrs, Items, NoMemory, Origin, PathPart, PrefixList, RawAttrs};
use lab_keys::{address_or, has, maybe_number, numbers_at, prefixes_at};
use std::alloc::Global;
use toml::Table;

/// Returns the path of one sequence, or the empty path if there is no AS number.
fn path_of(alloc: Global, ases: AsList) -> Result<AsPath, NoMemory>
    ensures { IfOk result (λ path. path ≡ sequence_path ases) }
{
    if ases.is_empty() {
        return Ok(AsPath::new(alloc));
    }
    Items::one(alloc, PathPart::Sequence(ases))
}

/// Returns the AS numbers of the path, or only the remote's if none are given.
fn ases_of(alloc: Global, remote_as: u32, table: &Table) -> Result<AsList, NoMemory>
    ensures { IfOk result (λ ases. ases ≡ step_ases remote_as (table_view table.now)) }
{
    if has("path", table) {
        return numbers_at(alloc, "path", table);
    }
    AsList::one(alloc, remote_as)
}

/// Returns the attributes that a remote of this AS number and address announces.
fn attrs_of(
    alloc: Global,
    remote_as: u32,
    remote_address: u32,
    table: &Table,
) -> Result<Attrs, NoMemory>
    ensures { IfOk result (λ attrs. attrs ≡ attrs_of_lem remote_as remote_address (table_view table.now)) }
{
    let ases = ases_of(alloc, remote_as, table)?;
    Ok(Attrs {
        origin: origin_at("origin", table).unwrap_or(Origin::Igp),
        path: path_of(alloc, ases)?,
        next_hop: address_or(remote_address, "next_hop", table),
        med: maybe_number("med", table),
        atomic: false,
        aggregator: None,
        unknown: RawAttrs::new(alloc),
    })
}

/// Returns the attributes that the remote of a peering announces.
pub(crate) fn said_attrs(
    alloc: Global,
    remote: Option<&PeeringInput>,
    table: &Table,
) -> Result<Attrs, NoMemory>
    ensures { IfOk result (λ attrs. attrs ≡ said_attrs_lem (option_copied remote.entry) (table_view table.now)) }
{
    match remote {
        Some(remote) => attrs_of(alloc, remote.remote_as, remote.remote_address, table),
        None => attrs_of(alloc, 0, 0, table),
    }
}

/// Returns the prefixes of a step without repetitions, each where it first stands.
pub(crate) fn said_prefixes(alloc: Global, table: &Table) -> Result<PrefixList, NoMemory>
    ensures { IfOk result (λ prefixes. prefixes ≡ said_prefixes_lem (table_view table.now)) }
{
    let prefixes = prefixes_at(alloc, "prefixes", table)?;
    each_once(alloc, &prefixes)
}
