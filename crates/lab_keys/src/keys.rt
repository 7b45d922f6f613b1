//! The flaws of tables.

ghost use Rattle.std.specs.Prelude.{◌≡◌, ℕ, List, Option, Some, None, map, option_map, length};
ghost use Rattle.toml.specs.Data.{get_member};
ghost use Rattle.toml.specs.View.{view, table_view};
ghost use Rattle.lab_keys.specs.Spots.{spot_of, member_of};
ghost use Rattle.lab_keys.specs.Kinds.{first_of, kind_flaw as kind_flaw_lem, bounded_array_flaw};
ghost use Rattle.lab_keys.specs.Keys.{value_flaw as value_flaw_lem, key_flaw as key_flaw_lem};
ghost use Rattle.lab_keys.specs.Keys.{keys_flaw as keys_flaw_lem, stray_in as stray_in_lem, stray_flaw as stray_flaw_lem};

use crate::flaw::Flaw;
use crate::key::{Counts, Key, Kind};
use crate::kinds::{beyond, flaw_if, kind_flaw, members_flaw};
use crate::spot::Spot;
use crate::table_at::TableAt;
use toml::{Table, Value};

/// Returns the value at a key.
pub fn value_at<'a>(table: &'a Table, key: &str) -> Option<&'a Value>
    ensures { option_map (λ v. view v.now) result ≡ get_member key.now (table_view table.now) }
{
    table.get(key)
}

/// Returns the first flaw of an array. Its length is checked before its members.
fn array_flaw<'a>(
    counts: Counts,
    kind: Kind,
    at: TableAt,
    key: &'a str,
    values: &[Value],
) -> Option<Flaw<'a>>
    ensures { result
        ≡ bounded_array_flaw (spot_of at key.now) counts.low counts.high (λ i. kind_flaw_lem kind (member_of (spot_of at key.now) i)) (map view values.now) }
{
    let count = values.len() as u64;
    if let Some(flaw) = beyond(
        Spot::of(at, key),
        counts.low as u64,
        counts.high as u64,
        count,
    ) {
        return Some(flaw);
    }
    members_flaw(kind, at, key, values)
}

/// Returns the first flaw of a value of a kind, or of an array of such values.
fn value_flaw<'a>(
    counts: Option<Counts>,
    kind: Kind,
    at: TableAt,
    key: &'a str,
    value: &Value,
) -> Option<Flaw<'a>>
    ensures { result ≡ value_flaw_lem counts kind (spot_of at key.now) (view value.now) }
{
    let Some(counts) = counts else {
        return kind_flaw(kind, Spot::of(at, key), value);
    };
    let Some(array) = value.as_array() else {
        return Some(Flaw::Shape(Spot::of(at, key)));
    };
    array_flaw(counts, kind, at, key, array.as_slice())
}

/// Returns the first flaw at a key of a table.
pub fn key_flaw<'a>(at: TableAt, key: &Key, table: &Table) -> Option<Flaw<'a>>
    ensures { result ≡ key_flaw_lem at (table_view table.now) key.now }
{
    let name = key.name();
    let Some(value) = value_at(table, name) else {
        return flaw_if(key.is_needed(), Flaw::Shape(Spot::of(at, name)));
    };
    value_flaw(key.counts(), key.kind(), at, name, value)
}

/// Returns the first flaw of the values at these keys of a table, in the order of the keys.
pub fn keys_flaw<'a>(at: TableAt, keys: &[Key], table: &Table) -> Option<Flaw<'a>>
    ensures { result ≡ keys_flaw_lem at keys.now (table_view table.now) }
{
    for key in keys {
        if let Some(flaw) = key_flaw(at, key, table) {
            return Some(flaw);
        }
    }
    None
}

/// Returns whether a key has a row.
fn has_row(key: &str, keys: &[Key]) -> bool
    ensures { result ≡ list_any (λ k. bytes_eq key.now k.name) keys.now }
{
    keys.iter().any(|k| key == k.name())
}

/// Returns whether a key is the name of a row.
fn is_known(key: &str, keys: &[Key]) -> bool
    ensures { result ≡ is_one_of (names_of keys.now) key.now }
{
    has_row(key, keys)
}

/// Returns the first unknown key of a table, in the order of bytes.
fn first_stray<'a>(keys: &[Key], table: &'a Table) -> Option<&'a String>
    ensures { option_map (λ k. k.now) result ≡ find (λ k. not (is_one_of (names_of keys.now) (string_bytes k))) (keys_of_map table.now) }
{
    table.keys().find(|key| !is_known(key.as_str(), keys))
}

/// Returns the text of the first unknown key of a table.
pub fn stray_in<'a>(keys: &[Key], table: &'a Table) -> Option<&'a str>
    ensures { option_map (λ key. key.now) result ≡ stray_in_lem (names_of keys.now) (table_view table.now) }
{
    let key = first_stray(keys, table)?;
    Some(key.as_str())
}

/// Returns the flaw of the first key of a table that has no row, if there is one.
pub fn stray_flaw<'a>(at: TableAt, keys: &[Key], table: &'a Table) -> Option<Flaw<'a>>
    ensures { result ≡ stray_flaw_lem at (names_of keys.now) (table_view table.now) }
{
    let key = stray_in(keys, table)?;
    Some(Flaw::Shape(Spot::of(at, key)))
}

ghost use Rattle.std.specs.Prelude.{not, string_bytes};
ghost use Rattle.std.specs.List.{list_any, find};
ghost use Rattle.std.specs.Str.{bytes_eq};
ghost use Rattle.std.specs.BTreeMap.{keys as keys_of_map};
ghost use Rattle.lab_keys.specs.Keys.{names_of, is_one_of};
