//! The names of expectations.

ghost use Rattle.std.specs.Prelude.{◌≡◌, IfOk, map};
ghost use Rattle.toml.specs.View.{table_view};
ghost use Rattle.lab_keys.specs.Kinds.{first_of};
ghost use Rattle.lab_keys.specs.Values.{maybe_text as maybe_text_lem};
ghost use Rattle.lab_input.specs.Names.{unknown_at as unknown_at_lem, source_named as source_named_lem, expect_named as expect_named_lem};

use crate::bad::BadInput;
use crate::names::unknown;
use crate::told::first;
use bgp_types::NoMemory;
use lab_keys::{first_word, further_words, maybe_text, text_at};
use lab_tables::NameIndex;
use std::alloc::Global;
use toml::Table;

/// Returns the fault of a name at a key, where there is one, that is none of these.
fn unknown_at(
    alloc: Global,
    names: &NameIndex,
    key: &str,
    table: &Table,
) -> Result<Option<BadInput>, NoMemory>
    ensures { IfOk result (λ bad. bad ≡ unknown_at_lem names.now (maybe_text_lem key.now (table_view table.now))) }
{
    match maybe_text(key, table) {
        Some(name) => unknown(alloc, names, name),
        None => Ok(None),
    }
}

/// Returns the fault of the peering or the router from which a best route is to come.
fn source_named(
    alloc: Global,
    routers: &NameIndex,
    peerings: &NameIndex,
    text: &str,
) -> Result<Option<BadInput>, NoMemory>
    ensures { IfOk result (λ bad. bad ≡ source_named_lem routers.now peerings.now text.now) }
{
    match first_word(text) {
        "peering" => unknown(alloc, peerings, further_words(text)),
        "router" => unknown(alloc, routers, further_words(text)),
        _ => Ok(None),
    }
}

/// Returns the first wrong name of an expectation.
fn expect_named(
    alloc: Global,
    routers: &NameIndex,
    peerings: &NameIndex,
    table: &Table,
) -> Result<Option<BadInput>, NoMemory>
    ensures { IfOk result (λ bad. bad ≡ expect_named_lem routers.now peerings.now (table_view table.now)) }
{
    let peering = unknown_at(alloc, peerings, "peering", table)?;
    let at = unknown_at(alloc, routers, "at", table)?;
    let router = unknown_at(alloc, routers, "router", table)?;
    let best = source_named(alloc, routers, peerings, text_at("best", table))?;
    Ok(first(peering, first(at, first(router, first(best, None)))))
}

/// Returns the first wrong name of expectations.
pub(crate) fn expects_named(
    alloc: Global,
    routers: &NameIndex,
    peerings: &NameIndex,
    tables: &[&Table],
) -> Result<Option<BadInput>, NoMemory>
    ensures { IfOk result (λ bad. bad ≡ first_of (map (λ u. expect_named_lem routers.now peerings.now (table_view u.now)) tables.now)) }
{
    for table in tables {
        if let Some(bad) = expect_named(alloc, routers, peerings, table)? {
            return Ok(Some(bad));
        }
    }
    Ok(None)
}
