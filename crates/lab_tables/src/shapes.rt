//! The shapes and limits of a whole document.

ghost use Rattle.std.specs.Prelude.{◌≡◌, false};
ghost use Rattle.toml.specs.View.{table_view};
ghost use Rattle.lab_keys.specs.declared.table_at.TableAt.TheVariants.{Top};
ghost use Rattle.lab_keys.specs.Keys.{keys_flaw as keys_flaw_lem, stray_flaw as stray_flaw_lem};
ghost use Rattle.lab_tables.specs.Documents.{home_keys, trace_keys, top_keys, top_names, shaped as shaped_lem};
ghost use Rattle.lab_tables.specs.Documents.{router_row as router_row_lem, cost_row as cost_row_lem};
ghost use Rattle.lab_tables.specs.Documents.{peering_row as peering_row_lem, fault_row as fault_row_lem, expect_row as expect_row_lem};

use crate::costs::{CostTables, FaultTables};
use crate::expects::{ExpectTables, most_graft};
use crate::numbers::AS_NUMBER;
use crate::peerings::PeeringTables;
use crate::routers::RouterTables;
use crate::scripts::steps_flaw;
use lab_keys::{Flaw, Key, Kind, TableAt, keys_flaw, stray_flaw, tables_flaw};
use toml::Table;

/// Returns the row of the routers.
fn router_row() -> Key
    ensures { result ≡ router_row_lem }
{
    Key::required_array("router", 1, 8, Kind::Table)
}

/// Returns the row of the costs.
fn cost_row() -> Key
    ensures { result ≡ cost_row_lem }
{
    Key::optional_array("cost", 0, 56, Kind::Table)
}

/// Returns the row of the peerings.
fn peering_row() -> Key
    ensures { result ≡ peering_row_lem }
{
    Key::optional_array("peering", 0, 32, Kind::Table)
}

/// Returns the row of the planned faults.
fn fault_row() -> Key
    ensures { result ≡ fault_row_lem }
{
    Key::optional_array("fault", 0, 1024, Kind::Table)
}

/// Returns the row of the expectations.
fn expect_row() -> Key
    ensures { result ≡ expect_row_lem }
{
    Key::optional_array("expect", 0, 1024, Kind::Table)
}

/// Returns the key of the addresses to which packets are followed.
fn trace_key() -> Key
    ensures { result ∷ [] ≡ trace_keys }
{
    Key::optional_array("trace", 0, 64, Kind::Address)
}

/// Returns the keys of a document.
pub(crate) fn document_keys() -> [Key; 8]
    ensures { result ≡ top_keys }
{
    [
        Key::required("home_as", AS_NUMBER),
        trace_key(),
        router_row(),
        cost_row(),
        peering_row(),
        fault_row(),
        Key::optional_array("step", 0, 4096, Kind::Table),
        expect_row(),
    ]
}

/// Returns the first flaw of what comes before the routers: the home AS number, and unknown keys.
fn head_flaw<'a>(doc: &'a Table) -> Option<Flaw<'a>>
    ensures { result ≡ option_or (keys_flaw_lem Top home_keys (table_view doc.now)) (stray_flaw_lem Top top_names (table_view doc.now)) }
{
    let rows = document_keys();
    let keys = &rows[..];
    if let Some(flaw) = keys_flaw(TableAt::Top, &keys[..1], doc) {
        return Some(flaw);
    }
    stray_flaw(TableAt::Top, keys, doc)
}

/// Returns the flaw of the addresses to which packets are followed.
fn trace_flaw<'a>(doc: &Table) -> Option<Flaw<'a>>
    ensures { result ≡ keys_flaw_lem Top trace_keys (table_view doc.now) }
{
    keys_flaw(TableAt::Top, &[trace_key()], doc)
}

/// Returns the first flaw of the expectations.
fn expects_flaw<'a>(doc: &'a Table) -> Option<Flaw<'a>>
    ensures { result ≡ row_flaw Top expect_row_lem (expect_flaw (most_graft_lem (table_view doc.now))) (table_view doc.now) }
{
    let kind = ExpectTables {
        most: most_graft(doc),
    };
    tables_flaw(&kind, TableAt::Top, &expect_row(), doc)
}

/// Returns the first flaw of what comes after the steps.
fn last_flaw<'a>(doc: &'a Table) -> Option<Flaw<'a>>
    ensures { result ≡ option_or (keys_flaw_lem Top trace_keys (table_view doc.now))
        (option_or (row_flaw Top expect_row_lem (expect_flaw (most_graft_lem (table_view doc.now))) (table_view doc.now)) None) }
{
    if let Some(flaw) = trace_flaw(doc) {
        return Some(flaw);
    }
    expects_flaw(doc)
}

/// Returns the first flaw of what comes after the peerings.
fn script_flaw<'a>(doc: &'a Table) -> Option<Flaw<'a>>
    ensures { result ≡ option_or (row_flaw Top fault_row_lem fault_flaw (table_view doc.now))
        (option_or (tables_flaw_lem Top (codes "step") false 0 4096 (step_flaw (items_at (codes "step") (table_view doc.now))) (table_view doc.now))
        (option_or (keys_flaw_lem Top trace_keys (table_view doc.now))
        (option_or (row_flaw Top expect_row_lem (expect_flaw (most_graft_lem (table_view doc.now))) (table_view doc.now)) None))) }
{
    if let Some(flaw) = tables_flaw(&FaultTables, TableAt::Top, &fault_row(), doc) {
        return Some(flaw);
    }
    if let Some(flaw) = steps_flaw(doc) {
        return Some(flaw);
    }
    last_flaw(doc)
}

/// Returns the first flaw of what comes after the routers.
fn further_flaw<'a>(doc: &'a Table) -> Option<Flaw<'a>>
    ensures { result ≡ option_or (row_flaw Top cost_row_lem cost_flaw (table_view doc.now))
        (option_or (row_flaw Top peering_row_lem (peering_flaw (table_view doc.now)) (table_view doc.now))
        (option_or (row_flaw Top fault_row_lem fault_flaw (table_view doc.now))
        (option_or (tables_flaw_lem Top (codes "step") false 0 4096 (step_flaw (items_at (codes "step") (table_view doc.now))) (table_view doc.now))
        (option_or (keys_flaw_lem Top trace_keys (table_view doc.now))
        (option_or (row_flaw Top expect_row_lem (expect_flaw (most_graft_lem (table_view doc.now))) (table_view doc.now)) None))))) }
{
    if let Some(flaw) = tables_flaw(&CostTables, TableAt::Top, &cost_row(), doc) {
        return Some(flaw);
    }
    if let Some(flaw) = tables_flaw(&PeeringTables { doc }, TableAt::Top, &peering_row(), doc) {
        return Some(flaw);
    }
    script_flaw(doc)
}

/// Returns the first flaw of a document. It takes no memory.
pub fn shaped<'a>(doc: &'a Table) -> Option<Flaw<'a>>
    ensures { result ≡ shaped_lem (table_view doc.now) }
{
    if let Some(flaw) = head_flaw(doc) {
        return Some(flaw);
    }
    if let Some(flaw) = tables_flaw(&RouterTables, TableAt::Top, &router_row(), doc) {
        return Some(flaw);
    }
    further_flaw(doc)
}

ghost use Rattle.std.specs.Prelude.{◌∷◌, [], None, codes};
ghost use Rattle.std.specs.Option.{option_or};
ghost use Rattle.lab_keys.specs.Keys.{tables_flaw as tables_flaw_lem, row_flaw};
ghost use Rattle.lab_keys.specs.Values.{items_at};
ghost use Rattle.lab_tables.specs.Peerings.{cost_flaw, peering_flaw, fault_flaw};
ghost use Rattle.lab_tables.specs.Scripts.{step_flaw};
ghost use Rattle.lab_tables.specs.Expects.{most_graft as most_graft_lem, expect_flaw};
