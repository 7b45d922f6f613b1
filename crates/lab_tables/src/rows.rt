//! The tables of a document by their places, and the rows of each.

ghost use Rattle.std.specs.Prelude.{◌≡◌, ◌++◌, IfOk, option_map, option_and_then, slice_get, map};
ghost use Rattle.toml.specs.Data.{as_table};
ghost use Rattle.toml.specs.View.{view, table_view};
ghost use Rattle.lab_tables.specs.Scripts.{do_keys, keys_of};
ghost use Rattle.lab_tables.specs.Rows.{table_in as table_in_lem, table_at as table_at_lem, form_rows, rows_at};

use crate::costs::{cost_keys, fault_keys, is_lost};
use crate::expects::{
    ExpectForm, form_of, graft_expect_keys, route_expect_keys, session_expect_keys,
};
use crate::peerings::peering_keys;
use crate::routers::router_keys;
use crate::rules::{policy_keys, rule_keys};
use crate::shapes::document_keys;
use crate::step_keys::{
    announce_keys, evacuate_keys, graft_keys, raw_keys, settle_keys, withdraw_keys,
};
use crate::words::{fault_kind_at, word_at};
use bgp_types::{Items, NoMemory};
use lab_keys::{Key, StepWord, TableAt, has, items_at};
use std::alloc::Global;
use toml::{Table, Value};

/// Returns the table at an index, if there is one.
fn table_of<'a>(values: &'a [Value], i: usize) -> Option<&'a Table>
    ensures { option_map (λ t. table_view t.now) result ≡ option_and_then as_table (slice_get (map view values.now) i) }
{
    values.get(i)?.as_table()
}

/// Returns the table at an index of the array at a key.
fn table_in<'a>(key: &str, i: usize, table: &'a Table) -> Option<&'a Table>
    ensures { option_map (λ t. table_view t.now) result ≡ table_in_lem key.now i (table_view table.now) }
{
    table_of(items_at(key, table)?, i)
}

/// Returns the table of a policy.
fn policy_in<'a>(i: usize, j: usize, doc: &'a Table) -> Option<&'a Table>
    ensures { option_map (λ t. table_view t.now) result ≡ table_at_lem (tables.Policy i j) (table_view doc.now) }
{
    table_in("policy", j, table_in("router", i, doc)?)
}

/// Returns the table of a rule.
fn rule_in<'a>(i: usize, j: usize, k: usize, doc: &'a Table) -> Option<&'a Table>
    ensures { option_map (λ t. table_view t.now) result ≡ table_at_lem (tables.Rule i j k) (table_view doc.now) }
{
    table_in("rule", k, policy_in(i, j, doc)?)
}

/// Returns the table of a document that stands at a place.
pub fn table_at<'a>(at: TableAt, doc: &'a Table) -> Option<&'a Table>
    ensures { option_map (λ t. table_view t.now) result ≡ table_at_lem at (table_view doc.now) }
{
    match at {
        TableAt::Top => Some(doc),
        TableAt::Router(i) => table_in("router", i, doc),
        TableAt::Policy(i, j) => policy_in(i, j, doc),
        TableAt::Rule(i, j, k) => rule_in(i, j, k, doc),
        TableAt::Cost(i) => table_in("cost", i, doc),
        TableAt::Peering(i) => table_in("peering", i, doc),
        TableAt::Fault(i) => table_in("fault", i, doc),
        TableAt::Step(i) => table_in("step", i, doc),
        TableAt::Expect(i) => table_in("expect", i, doc),
    }
}

/// Returns the keys of a step of this word.
fn step_keys(alloc: Global, word: StepWord) -> Result<Vec<Key>, NoMemory>
    ensures { IfOk result (λ keys. keys.items ≡ do_keys ++ keys_of word) }
{
    match word {
        StepWord::Announces => Ok(Vec::from_array(alloc, announce_keys())?),
        StepWord::Withdraws => Ok(Vec::from_array(alloc, withdraw_keys())?),
        StepWord::SaysRaw => Ok(Vec::from_array(alloc, raw_keys())?),
        StepWord::Grafts => Ok(Vec::from_array(alloc, graft_keys())?),
        StepWord::Settles => Ok(Vec::from_array(alloc, settle_keys())?),
        StepWord::Evacuates => Ok(Vec::from_array(alloc, evacuate_keys())?),
    }
}

/// Returns the keys of an expectation of a form, none if it has no form.
fn form_keys(alloc: Global, form: Option<ExpectForm>) -> Result<Vec<Key>, NoMemory>
    ensures { IfOk result (λ keys. keys.items ≡ form_rows form) }
{
    match form {
        Some(ExpectForm::Graft) => Ok(Vec::from_array(alloc, graft_expect_keys())?),
        Some(ExpectForm::Session) => Ok(Vec::from_array(alloc, session_expect_keys())?),
        Some(ExpectForm::Route) => Ok(Vec::from_array(alloc, route_expect_keys())?),
        None => Ok(Vec::new(alloc)),
    }
}

/// Returns the keys of a table that stands at a place.
fn rows_of(alloc: Global, at: TableAt, table: &Table) -> Result<Vec<Key>, NoMemory>
    ensures { IfOk result (λ keys. keys.items ≡ rows_at at (table_view table.now)) }
{
    match at {
        TableAt::Top => Ok(Vec::from_array(alloc, document_keys())?),
        TableAt::Router(_) => Ok(Vec::from_array(alloc, router_keys())?),
        TableAt::Policy(_, _) => Ok(Vec::from_array(alloc, policy_keys())?),
        TableAt::Rule(_, _, _) => Ok(Vec::from_array(alloc, rule_keys(has("prefix", table)))?),
        TableAt::Cost(_) => Ok(Vec::from_array(alloc, cost_keys())?),
        TableAt::Peering(_) => Ok(Vec::from_array(alloc, peering_keys())?),
        TableAt::Fault(_) => Ok(Vec::from_array(alloc, fault_keys(is_lost(fault_kind_at(table))))?),
        TableAt::Step(_) => step_keys(alloc, word_at(table)),
        TableAt::Expect(_) => form_keys(alloc, form_of(table)),
    }
}

/// Returns the keys of the table that stands at a place, arrays of tables among them.
pub fn keys_at(alloc: Global, at: TableAt, table: &Table) -> Result<Items<Key>, NoMemory>
    ensures { IfOk result (λ keys. keys ≡ rows_at at (table_view table.now)) }
{
    Ok(Items::from_vec(rows_of(alloc, at, table)?))
}

ghost use Rattle.lab_keys.specs.declared.table_at.TableAt.TheVariants as tables;
