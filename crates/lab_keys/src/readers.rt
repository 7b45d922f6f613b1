//! The values of arrays of tables.

ghost use Rattle.std.specs.Prelude.{◌≡◌, IfOk, map, option_map};
ghost use Rattle.std.specs.List.{filter_map};
ghost use Rattle.toml.specs.Data.{Members, as_table};
ghost use Rattle.toml.specs.View.{view, table_view};
ghost use Rattle.lab_keys.specs.Values.{tables_at};

use crate::arrays::{items_at, push_some};
use bgp_types::{Items, NoMemory};
use std::alloc::Global;
use toml::{Table, Value};

/// A reader of tables as values.
pub trait TableReader<V: Drop> {
    /// The value of a table.
    ghost value_of: { Self → Members → V };

    /// Returns the value of a table.
    fn value(&self, alloc: Global, table: &Table) -> Result<V, NoMemory>
        ensures { IfOk result (λ value. value ≡ value_of self.now (table_view table.now)) };
}

/// Returns the value of a table, if `item` is one.
fn value_of<V: Drop, R: TableReader<V>>(
    reader: &R,
    alloc: Global,
    item: &Value,
) -> Result<Option<V>, NoMemory>
    ensures { IfOk result (λ value. value ≡ option_map (R.value_of reader.now) (as_table (view item.now))) }
{
    match item.as_table() {
        Some(table) => Ok(Some(reader.value(alloc, table)?)),
        None => Ok(None),
    }
}

/// Returns the values of those items that are tables.
fn values_of<V: Drop, R: TableReader<V>>(
    reader: &R,
    alloc: Global,
    items: &[Value],
) -> Result<Items<V>, NoMemory>
    ensures { IfOk result (λ values. values ≡ map (R.value_of reader.now) (filter_map as_table (map view items.now))) }
{
    let mut values = Items::from_vec(Vec::with_capacity(alloc, items.len())?);
    for item in items {
        push_some(&mut values, value_of(reader, alloc, item)?)?;
    }
    Ok(values)
}

/// Returns the values of the tables of the array at a key.
pub fn values_at<V: Drop, R: TableReader<V>>(
    reader: &R,
    alloc: Global,
    key: &str,
    table: &Table,
) -> Result<Items<V>, NoMemory>
    ensures { IfOk result (λ values. values ≡ map (R.value_of reader.now) (tables_at key.now (table_view table.now))) }
{
    match items_at(key, table) {
        Some(items) => values_of(reader, alloc, items),
        None => Ok(Items::new(alloc)),
    }
}

/// Returns those items that are tables.
fn tables_of<'a>(alloc: Global, items: &'a [Value]) -> Result<Items<&'a Table>, NoMemory>
    ensures { IfOk result (λ tables. map (λ t. table_view t.now) tables ≡ filter_map as_table (map view items.now)) }
{
    let mut tables = Items::from_vec(Vec::with_capacity(alloc, items.len())?);
    for item in items {
        push_some(&mut tables, item.as_table())?;
    }
    Ok(tables)
}

/// Returns the tables of the array at a key.
pub fn tables_in<'a>(
    alloc: Global,
    key: &str,
    table: &'a Table,
) -> Result<Items<&'a Table>, NoMemory>
    ensures { IfOk result (λ tables. map (λ t. table_view t.now) tables ≡ tables_at key.now (table_view table.now)) }
{
    match items_at(key, table) {
        Some(items) => tables_of(alloc, items),
        None => Ok(Items::new(alloc)),
    }
}
