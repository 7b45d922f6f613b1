//! Routers.

ghost use Rattle.std.specs.Prelude.{◌≡◌, ◌++◌, ◌∷◌, [], IfOk};
ghost use Rattle.toml.specs.View.{table_view};
ghost use Rattle.lab_tables.specs.Routers.{router_keys as router_keys_lem, policy_row as policy_row_lem};
ghost use Rattle.lab_tables.specs.Routers.{router_flaw as router_flaw_lem, router_of as router_of_lem};

use crate::input::RouterInput;
use crate::rules::{PolicyReader, PolicyTables};
use bgp_types::{Name, NoMemory};
use lab_keys::{
    Flaw, Key, Kind, TableAt, TableKind, TableReader, address_or, flag_or, keys_flaw, number_or,
    prefixes_at, stray_flaw, tables_flaw, text_at, values_at,
};
use std::alloc::Global;
use toml::Table;

/// The number of keys of a router in front of its policies.
const FIRST_KEYS: usize = 5;

/// Returns the row of a router's policies.
fn policy_row() -> Key
    ensures { result ≡ policy_row_lem }
{
    Key::optional_array("policy", 0, 16, Kind::Table)
}

/// Returns the keys of a router.
pub(crate) fn router_keys() -> [Key; 6]
    ensures { result ≡ router_keys_lem ++ policy_row_lem ∷ [] }
{
    [
        Key::required("name", Kind::Name),
        Key::required("id", Kind::Host),
        Key::required("sessions", Kind::Number { low: 0, high: 32 }),
        Key::optional("by_bytes", Kind::Flag),
        Key::optional_array("networks", 0, 256, Kind::Prefix),
        policy_row(),
    ]
}

/// Returns the first flaw of the router at index `i`.
fn router_flaw<'a>(i: usize, table: &'a Table) -> Option<Flaw<'a>>
    ensures { result ≡ router_flaw_lem i (table_view table.now) }
{
    let at = TableAt::Router(i);
    let rows = router_keys();
    let keys = &rows[..];
    if let Some(flaw) = keys_flaw(at, &keys[..FIRST_KEYS], table) {
        return Some(flaw);
    }
    if let Some(flaw) = tables_flaw(&PolicyTables { router: i }, at, &policy_row(), table) {
        return Some(flaw);
    }
    stray_flaw(at, keys, table)
}

/// Returns the router that a table stands for.
fn router_of(alloc: Global, table: &Table) -> Result<RouterInput, NoMemory>
    ensures { IfOk result (λ router. router ≡ router_of_lem (table_view table.now)) }
{
    Ok(RouterInput {
        name: Name::from_text(alloc, text_at("name", table))?,
        id: address_or(0, "id", table),
        sessions: number_or(0, "sessions", table),
        by_bytes: flag_or(false, "by_bytes", table),
        networks: prefixes_at(alloc, "networks", table)?,
        policies: values_at(&PolicyReader, alloc, "policy", table)?,
    })
}

/// The array of routers of an input.
#[derive(Drop)]
pub(crate) struct RouterTables;

impl TableKind for RouterTables {
    ghost flaw_of = { λ _. router_flaw_lem };

    fn flaw<'a>(&self, i: usize, table: &'a Table) -> Option<Flaw<'a>> {
        router_flaw(i, table)
    }
}

impl TableReader<RouterInput> for RouterTables {
    ghost value_of = { λ _. router_of_lem };

    fn value(&self, alloc: Global, table: &Table) -> Result<RouterInput, NoMemory> {
        router_of(alloc, table)
    }
}
