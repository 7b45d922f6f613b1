//! A value of a wrong shape, or beyond its limits.

ghost use Rattle.std.specs.Prelude.{◌≡◌, ◌++◌, Some, OnOk, string_bytes, option_map, option_copied, unwrap_or};
ghost use Rattle.std.specs.List.{find};
ghost use Rattle.std.specs.Str.{bytes_eq};
ghost use Rattle.toml.specs.Data.{no_members};
ghost use Rattle.toml.specs.View.{table_view};
ghost use Rattle.lab_keys.specs.declared.flaw.Flaw.{Flaw as FlawOf};
ghost use Rattle.lab_keys.specs.Values.{has_member};
ghost use Rattle.lab_hints.specs.Wanted.{wanted_words};
ghost use Rattle.lab_tables.specs.Rows.{rows_at, table_at as table_at_lem};
ghost use Rattle.lab_hints.specs.Shapes.{relation_words, related_words, missing_words, flawed_words, row_words, key_words, spot_in as spot_in_lem, shape_words};

use crate::stray::{push_instead, push_stray};
use crate::wanted::{push_wanted, push_words};
use bgp_types::NoMemory;
use lab_keys::{Flaw, Key, Spot, TableAt, has, key_flaw, stray_in};
use lab_tables::{keys_at, table_at};
use std::alloc::Global;
use toml::Table;

/// Returns how the value at a key has to be beside other ones, if there is such a rule.
fn relation(at: TableAt, key: &str) -> Option<&'static str>
    ensures { option_map (λ words. words.now) result ≡ relation_words at key.now }
{
    match at {
        TableAt::Cost(_) => Some("a cost goes from one router to another one"),
        TableAt::Peering(_) => if key == "beats" {
            Some(
                "true wants home_hold and hold above 0, and neither an opening nor a raw step of the peering",
            )
        } else {
            Some("the AS of a remote is another one than home_as")
        },
        TableAt::Fault(_) => Some("only a segment to home can stray"),
        TableAt::Step(_) => if key == "least" {
            Some("least is at most rounds")
        } else {
            Some(
                "beside an evacuate step, a group has neither a graft nor a second evacuate step; a settle step ends a group",
            )
        },
        TableAt::Expect(_) => {
            Some(
                "the grafts of the script count from 1: a graft step is one, and an evacuate step one for each peering",
            )
        }
        TableAt::Top => if key == "expect" {
            Some(
                "an expectation has one of graft, peering and router, and beside peering one of at, state, heard and told or more of them",
            )
        } else {
            None
        },
        _ => None,
    }
}

/// Adds the key of a row, and what is wanted there.
fn push_key_with(text: &mut String, link: &str, at: TableAt, row: &Key) -> Result<(), NoMemory>
    ensures { OnOk result (string_bytes text.new ≡ string_bytes text.old ++ (row.now.name ++ link.now ++ wanted_words at row.now)) }
{
    text.push_str(row.name())?;
    text.push_str(link)?;
    push_wanted(text, at, row)
}

/// Adds how a value that is right by itself has to be beside other ones.
fn push_related(text: &mut String, at: TableAt, row: &Key) -> Result<(), NoMemory>
    ensures { OnOk result (string_bytes text.new ≡ string_bytes text.old ++ related_words at row.now) }
{
    match relation(at, row.name()) {
        Some(words) => push_words(text, words),
        None => push_key_with(text, " is ", at, row),
    }
}

/// Adds that a key is missing, and which one may stand there in its place.
fn push_missing(
    alloc: Global,
    text: &mut String,
    at: TableAt,
    table: &Table,
    row: &Key,
    keys: &[Key],
) -> Result<(), NoMemory>
    requires { keys.now ≡ rows_at at (table_view table.now) }
    ensures { OnOk result (string_bytes text.new ≡ string_bytes text.old ++ missing_words at (table_view table.now) row.now) }
{
    push_key_with(text, " is missing: ", at, row)?;
    push_instead(alloc, text, stray_in(keys, table), row.name())
}

/// Adds the hint for a value that has a flaw by itself, or is missing, at the key of a row, which is one of these keys.
fn push_flawed(
    alloc: Global,
    text: &mut String,
    at: TableAt,
    table: &Table,
    row: &Key,
    keys: &[Key],
) -> Result<(), NoMemory>
    requires { keys.now ≡ rows_at at (table_view table.now) }
    ensures { (flaw : FlawOf) → OnOk result (string_bytes text.new
        ≡ string_bytes text.old ++ flawed_words (Some flaw) (has_member row.now.name (table_view table.now)) at (table_view table.now) row.now) }
{
    if has(row.name(), table) {
        return push_key_with(text, " is ", at, row);
    }
    push_missing(alloc, text, at, table, row, keys)
}

/// Adds the hint for the value at the key of a row, which is one of these keys.
fn push_row(
    alloc: Global,
    text: &mut String,
    at: TableAt,
    table: &Table,
    row: &Key,
    keys: &[Key],
) -> Result<(), NoMemory>
    requires { keys.now ≡ rows_at at (table_view table.now) }
    ensures { OnOk result (string_bytes text.new ≡ string_bytes text.old ++ row_words at (table_view table.now) row.now) }
{
    match key_flaw(at, row, table) {
        None => push_related(text, at, row),
        Some(_) => push_flawed(alloc, text, at, table, row, keys),
    }
}

/// Returns whether a row has this key.
fn is_called(key: &str, row: &Key) -> bool
    ensures { result ≡ bytes_eq key.now row.now.name }
{
    key == row.name()
}

/// Returns the first row that has this key.
fn row_of<'k>(keys: &'k [Key], key: &str) -> Option<&'k Key>
    ensures { option_copied result ≡ find (λ row. bytes_eq key.now row.name) keys.now }
{
    keys.iter().find(|row| is_called(key, row))
}

/// Adds the hint for a key of a table that stands at a place.
fn push_key(
    alloc: Global,
    text: &mut String,
    at: TableAt,
    table: &Table,
    key: &str,
) -> Result<(), NoMemory>
    ensures { OnOk result (string_bytes text.new ≡ string_bytes text.old ++ key_words at (table_view table.now) key.now) }
{
    let keys = keys_at(alloc, at, table)?;
    let rows = keys.as_slice();
    match row_of(rows, key) {
        Some(row) => push_row(alloc, text, at, table, row, rows),
        None => push_stray(alloc, text, key, rows),
    }
}

/// Adds the hint for a key of a table without keys.
fn push_key_of_none(
    alloc: Global,
    text: &mut String,
    at: TableAt,
    key: &str,
) -> Result<(), NoMemory>
    ensures { OnOk result (string_bytes text.new ≡ string_bytes text.old ++ key_words at no_members key.now) }
{
    let none = Table::new(alloc);
    push_key(alloc, text, at, &none, key)
}

/// Adds the hint for a key of the table of a document that stands at a place.
fn push_key_at(
    alloc: Global,
    text: &mut String,
    doc: &Table,
    at: TableAt,
    key: &str,
) -> Result<(), NoMemory>
    ensures { OnOk result (string_bytes text.new
        ≡ string_bytes text.old ++ key_words at (unwrap_or (table_at_lem at (table_view doc.now)) no_members) key.now) }
{
    match table_at(at, doc) {
        Some(table) => push_key(alloc, text, at, table, key),
        None => push_key_of_none(alloc, text, at, key),
    }
}

/// Returns where a flaw is.
fn spot_in<'a>(flaw: Flaw<'a>) -> Spot<'a>
    ensures { result ≡ spot_in_lem flaw.entry }
{
    match flaw {
        Flaw::Shape(spot) => spot,
        Flaw::Limit(spot, _) => spot,
    }
}

/// Adds the hint for a flaw of a document.
pub(crate) fn push_shape<'a>(
    alloc: Global,
    text: &mut String,
    doc: &Table,
    flaw: Flaw<'a>,
) -> Result<(), NoMemory>
    ensures { OnOk result (string_bytes text.new ≡ string_bytes text.old ++ shape_words (table_view doc.now) (spot_in_lem flaw.entry)) }
{
    let (at, key, _) = spot_in(flaw).into_parts();
    push_key_at(alloc, text, doc, at, key)
}
