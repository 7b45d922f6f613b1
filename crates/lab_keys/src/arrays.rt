//! The values of arrays.

ghost use Rattle.std.specs.Prelude.{◌≡◌, ◌++◌, IfOk, OnOk, [], map};
ghost use Rattle.toml.specs.View.{view, table_view};
ghost use Rattle.lab_keys.specs.Values.{number_in as number_in_lem, items_at as items_at_lem, prefix_of_data, address_of_data};
ghost use Rattle.lab_keys.specs.Values.{prefixes_at as prefixes_at_lem, addresses_at as addresses_at_lem, numbers_at as numbers_at_lem};
ghost use Rattle.std.specs.List.{filter_map, cons_option};
ghost use Rattle.std.specs.Option.{option_map_or};

use crate::keys::value_at;
use crate::texts::{address_in, prefix_in};
use crate::values::number_in;
use bgp_types::{Items, NoMemory, Prefix, PrefixList};
use std::alloc::Global;
use toml::{Table, Value};

/// Adds a value at the end, if there is one.
pub fn push_some<T: Drop>(list: &mut Items<T>, value: Option<T>) -> Result<(), NoMemory>
    ensures { OnOk result (list.new ≡ list.old ++ cons_option value []) }
{
    if let Some(value) = value {
        list.push(value)?;
    }
    Ok(())
}

/// Returns the values of the array at a key, if there is one.
pub fn items_at<'a>(key: &str, table: &'a Table) -> Option<&'a [Value]>
    ensures { option_map_or (λ values. map view values.now) result [] ≡ items_at_lem key.now (table_view table.now) }
{
    let array = value_at(table, key)?.as_array()?;
    Some(array.as_slice())
}

fn prefix_of(value: &Value) -> Option<Prefix>
    ensures { result ≡ prefix_of_data (view value.now) }
{
    prefix_in(value.as_str()?)
}

/// Returns the prefixes written by texts of an array. Other values are skipped.
fn prefixes_of(alloc: Global, values: &[Value]) -> Result<PrefixList, NoMemory>
    ensures { IfOk result (λ prefixes. prefixes ≡ filter_map prefix_of_data (map view values.now)) }
{
    let mut prefixes = Items::from_vec(Vec::with_capacity(alloc, values.len())?);
    for value in values {
        push_some(&mut prefixes, prefix_of(value))?;
    }
    Ok(prefixes)
}

/// Returns the prefixes of the array at a key.
pub fn prefixes_at(alloc: Global, key: &str, table: &Table) -> Result<PrefixList, NoMemory>
    ensures { IfOk result (λ prefixes. prefixes ≡ prefixes_at_lem key.now (table_view table.now)) }
{
    match items_at(key, table) {
        Some(values) => prefixes_of(alloc, values),
        None => Ok(PrefixList::new(alloc)),
    }
}

fn address_of(value: &Value) -> Option<u32>
    ensures { result ≡ address_of_data (view value.now) }
{
    address_in(value.as_str()?)
}

/// Returns the addresses written by texts of an array. Other values are skipped.
fn addresses_of(alloc: Global, values: &[Value]) -> Result<Items<u32>, NoMemory>
    ensures { IfOk result (λ addresses. addresses ≡ filter_map address_of_data (map view values.now)) }
{
    let mut addresses = Items::from_vec(Vec::with_capacity(alloc, values.len())?);
    for value in values {
        push_some(&mut addresses, address_of(value))?;
    }
    Ok(addresses)
}

/// Returns the addresses of the array at a key.
pub fn addresses_at(alloc: Global, key: &str, table: &Table) -> Result<Items<u32>, NoMemory>
    ensures { IfOk result (λ addresses. addresses ≡ addresses_at_lem key.now (table_view table.now)) }
{
    match items_at(key, table) {
        Some(values) => addresses_of(alloc, values),
        None => Ok(Items::new(alloc)),
    }
}

/// Returns the numbers of an array that fit in 32 bits. Other values are skipped.
fn numbers_of(alloc: Global, values: &[Value]) -> Result<Items<u32>, NoMemory>
    ensures { IfOk result (λ numbers. numbers ≡ filter_map (number_in_lem 32) (map view values.now)) }
{
    let mut numbers = Items::from_vec(Vec::with_capacity(alloc, values.len())?);
    for value in values {
        push_some(&mut numbers, number_in(value))?;
    }
    Ok(numbers)
}

/// Returns the numbers of the array at a key.
pub fn numbers_at(alloc: Global, key: &str, table: &Table) -> Result<Items<u32>, NoMemory>
    ensures { IfOk result (λ numbers. numbers ≡ numbers_at_lem key.now (table_view table.now)) }
{
    match items_at(key, table) {
        Some(values) => numbers_of(alloc, values),
        None => Ok(Items::new(alloc)),
    }
}
