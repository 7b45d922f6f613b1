//! The values at keys, and defaults.

ghost use Rattle.std.specs.Prelude.{◌≡◌, IfOk, Some, None, map, option_map, option_copied};
ghost use Rattle.toml.specs.Data.{as_str};
ghost use Rattle.toml.specs.View.{view, table_view};
ghost use Rattle.lab_keys.specs.Texts.{octets_in as octets_in_lem};
ghost use Rattle.lab_keys.specs.Values.{has_member, number_in as number_in_lem, maybe_number as maybe_number_lem};
ghost use Rattle.lab_keys.specs.Values.{number_or as number_or_lem, maybe_text as maybe_text_lem, text_at as text_at_lem};
ghost use Rattle.lab_keys.specs.Values.{flag_or as flag_or_lem, address_or as address_or_lem, maybe_prefix as maybe_prefix_lem};
ghost use Rattle.lab_keys.specs.Values.{octets_at as octets_at_lem, items_at as items_at_lem, prefix_of_data, address_of_data};
ghost use Rattle.lab_keys.specs.Values.{prefixes_at as prefixes_at_lem, addresses_at as addresses_at_lem, numbers_at as numbers_at_lem};

use crate::keys::value_at;
use crate::texts::{address_in, prefix_in};
use bgp_types::{Items, NoMemory, Octets, Prefix, PrefixList};
use std::alloc::Global;
use toml::{Table, Value};

/// Returns whether there is a value at a key.
pub fn has(key: &str, table: &Table) -> bool
    ensures { result ≡ has_member key.now (table_view table.now) }
{
    value_at(table, key).is_some()
}

/// Returns the number that a value is, if it fits in 32 bits.
pub fn number_in(value: &Value) -> Option<u32>
    ensures { result ≡ number_in_lem 32 (view value.now) }
{
    match value {
        Value::Integer(n) if 0 <= *n && *n <= i64::from(u32::MAX) => Some(*n as u32),
        _ => None,
    }
}

/// Returns the number at a key, if it fits in 32 bits.
pub fn maybe_number(key: &str, table: &Table) -> Option<u32>
    ensures { result ≡ maybe_number_lem 32 key.now (table_view table.now) }
{
    number_in(value_at(table, key)?)
}

/// Returns the number at a key, or else the default.
pub fn number_or(default: u32, key: &str, table: &Table) -> u32
    ensures { result ≡ number_or_lem 32 default key.now (table_view table.now) }
{
    maybe_number(key, table).unwrap_or(default)
}

fn short_in(value: &Value) -> Option<u16>
    ensures { result ≡ number_in_lem 16 (view value.now) }
{
    match value {
        Value::Integer(n) if 0 <= *n && *n <= i64::from(u16::MAX) => Some(*n as u16),
        _ => None,
    }
}

fn maybe_short(key: &str, table: &Table) -> Option<u16>
    ensures { result ≡ maybe_number_lem 16 key.now (table_view table.now) }
{
    short_in(value_at(table, key)?)
}

/// Returns the 16-bit number at a key, or else the default.
pub fn short_or(default: u16, key: &str, table: &Table) -> u16
    ensures { result ≡ number_or_lem 16 default key.now (table_view table.now) }
{
    maybe_short(key, table).unwrap_or(default)
}

fn small_in(value: &Value) -> Option<u8>
    ensures { result ≡ number_in_lem 8 (view value.now) }
{
    match value {
        Value::Integer(n) if 0 <= *n && *n <= i64::from(u8::MAX) => Some(*n as u8),
        _ => None,
    }
}

fn maybe_small(key: &str, table: &Table) -> Option<u8>
    ensures { result ≡ maybe_number_lem 8 key.now (table_view table.now) }
{
    small_in(value_at(table, key)?)
}

/// Returns the 8-bit number at a key, or else the default.
pub fn small_or(default: u8, key: &str, table: &Table) -> u8
    ensures { result ≡ number_or_lem 8 default key.now (table_view table.now) }
{
    maybe_small(key, table).unwrap_or(default)
}

/// Returns the text at a key.
pub fn maybe_text<'a>(key: &str, table: &'a Table) -> Option<&'a str>
    ensures { option_copied result ≡ maybe_text_lem key.now (table_view table.now) }
{
    value_at(table, key)?.as_str()
}

/// Returns the text at a key, or else the empty text.
pub fn text_at<'a>(key: &str, table: &'a Table) -> &'a str
    ensures { result.now ≡ text_at_lem key.now (table_view table.now) }
{
    match maybe_text(key, table) {
        Some(text) => text,
        None => "",
    }
}

fn flag_at(key: &str, table: &Table) -> Option<bool>
    ensures { result ≡ option_and_then as_bool (get_member key.now (table_view table.now)) }
{
    value_at(table, key)?.as_bool()
}

/// Returns the flag at a key, or else the default.
pub fn flag_or(default: bool, key: &str, table: &Table) -> bool
    ensures { result ≡ flag_or_lem default key.now (table_view table.now) }
{
    flag_at(key, table).unwrap_or(default)
}

fn address_at(key: &str, table: &Table) -> Option<u32>
    ensures { result ≡ option_and_then address_in_lem (maybe_text_lem key.now (table_view table.now)) }
{
    address_in(maybe_text(key, table)?)
}

/// Returns the address at a key, or else the default.
pub fn address_or(default: u32, key: &str, table: &Table) -> u32
    ensures { result ≡ address_or_lem default key.now (table_view table.now) }
{
    address_at(key, table).unwrap_or(default)
}

/// Returns the prefix at a key.
pub fn maybe_prefix(key: &str, table: &Table) -> Option<Prefix>
    ensures { result ≡ maybe_prefix_lem key.now (table_view table.now) }
{
    prefix_in(maybe_text(key, table)?)
}

/// Returns the octets written by a text in hexadecimal; none if the text isn't hexadecimal.
fn octets_in(alloc: Global, text: &str) -> Result<Octets, NoMemory>
    ensures { IfOk result (λ octets. octets ≡ octets_in_lem text.now) }
{
    match hex::decode(alloc, text) {
        Ok(octets) => Ok(Items::from_vec(octets)),
        Err(FromHexError::OutOfMemory) => Err(NoMemory),
        Err(_) => Ok(Items::new(alloc)),
    }
}

/// Returns the octets written in hexadecimal by the text at a key.
pub fn octets_at(alloc: Global, key: &str, table: &Table) -> Result<Octets, NoMemory>
    ensures { IfOk result (λ octets. octets ≡ octets_at_lem key.now (table_view table.now)) }
{
    octets_in(alloc, text_at(key, table))
}

ghost use Rattle.std.specs.Prelude.{option_and_then};
ghost use Rattle.toml.specs.Data.{as_bool, get_member};
ghost use Rattle.lab_keys.specs.Texts.{address_in as address_in_lem};

use hex::FromHexError;
