//! Arrays of tables.

ghost use Rattle.std.specs.Prelude.{◌≡◌, ℕ, List, Option, Some, None, map};
ghost use Rattle.toml.specs.Data.{Members};
ghost use Rattle.toml.specs.View.{view, table_view};
ghost use Rattle.lab_keys.specs.declared.flaw.Flaw.{Flaw as FlawOf};
ghost use Rattle.lab_keys.specs.Spots.{spot_of, member_of};
ghost use Rattle.lab_keys.specs.Kinds.{table_flaw, each_from};
ghost use Rattle.lab_keys.specs.Keys.{tables_flaw as tables_flaw_lem, row_flaw};

use crate::flaw::Flaw;
use crate::key::Key;
use crate::keys::value_at;
use crate::kinds::{beyond, flaw_if};
use crate::spot::Spot;
use crate::table_at::TableAt;
use toml::{Table, Value};

/// A kind of tables that are members of an array.
pub trait TableKind {
    /// The first flaw of the table at an index of the array.
    ghost flaw_of: { Self → ℕ → Members → Option FlawOf };

    /// Returns the first flaw of the table at index `i` of the array.
    fn flaw<'a>(&self, i: usize, table: &'a Table) -> Option<Flaw<'a>>
        ensures { result ≡ flaw_of self.now i (table_view table.now) };
}

/// Where an array of tables is, whether it is required, and how many tables it may have.
#[derive(Clone, Copy, Debug)]
struct ArrayAt {
    table: TableAt,
    needed: bool,
    low: usize,
    high: usize,
}

/// Returns the first flaw of the value at index `i` of an array of tables.
fn item_flaw<'a, K: TableKind>(
    kind: &K,
    at: TableAt,
    key: &'a str,
    i: usize,
    value: &'a Value,
) -> Option<Flaw<'a>>
    ensures { result ≡ table_flaw (member_of (spot_of at key.now) i) (K.flaw_of kind.now i) (view value.now) }
{
    let Some(table) = value.as_table() else {
        return Some(Flaw::Shape(Spot::of(at, key).member(i)));
    };
    kind.flaw(i, table)
}

/// Returns the first flaw of the values of an array of tables.
fn items_flaw<'a, K: TableKind>(
    kind: &K,
    at: TableAt,
    key: &'a str,
    values: &'a [Value],
) -> Option<Flaw<'a>>
    ensures { result ≡ each_from (λ i. table_flaw (member_of (spot_of at key.now) i) (K.flaw_of kind.now i)) 0 (map view values.now) }
{
    for (i, value) in values.iter().enumerate() {
        if let Some(flaw) = item_flaw(kind, at, key, i, value) {
            return Some(flaw);
        }
    }
    None
}

/// Returns the first flaw of the array of tables at a key.
fn bounded_tables_flaw<'a, K: TableKind>(
    kind: &K,
    at: ArrayAt,
    key: &'a str,
    table: &'a Table,
) -> Option<Flaw<'a>>
    ensures { result ≡ tables_flaw_lem at.table key.now at.needed at.low at.high (K.flaw_of kind.now) (table_view table.now) }
{
    let Some(value) = value_at(table, key) else {
        return flaw_if(at.needed, Flaw::Shape(Spot::of(at.table, key)));
    };
    let Some(array) = value.as_array() else {
        return Some(Flaw::Shape(Spot::of(at.table, key)));
    };
    let values = array.as_slice();
    let spot = Spot::of(at.table, key);
    if let Some(flaw) = beyond(spot, at.low as u64, at.high as u64, values.len() as u64) {
        return Some(flaw);
    }
    items_flaw(kind, at.table, key, values)
}

/// Returns the first flaw of the array of tables that a row is of.
pub fn tables_flaw<'a, K: TableKind>(
    kind: &K,
    at: TableAt,
    row: &Key,
    table: &'a Table,
) -> Option<Flaw<'a>>
    ensures { result ≡ row_flaw at row.now (K.flaw_of kind.now) (table_view table.now) }
{
    let limits = row.limits();
    let array = ArrayAt {
        table: at,
        needed: row.is_needed(),
        low: limits.low,
        high: limits.high,
    };
    bounded_tables_flaw(kind, array, row.name(), table)
}
