//! The values that expectations want of a run.

ghost use Rattle.std.specs.Prelude.{◌≡◌, IfOk};
ghost use Rattle.toml.specs.View.{table_view};
ghost use Rattle.lab_keys.specs.Values.{text_at as text_at_lem};
ghost use Rattle.lab_tables.specs.Expects.{at_wanted as at_wanted_lem, state_wanted as state_wanted_lem, heard_wanted as heard_wanted_lem};
ghost use Rattle.lab_tables.specs.Expects.{told_wanted as told_wanted_lem, session_wanted as session_wanted_lem, source_in as source_in_lem};
ghost use Rattle.lab_tables.specs.Expects.{best_wanted as best_wanted_lem, wanted_by_form, expectation_of as expectation_of_lem, one_if as one_if_lem};

use crate::expectation::{Expectation, ExpectedValue};
use crate::expects::{ExpectForm, form_of};
use crate::name_index::NameIndex;
use bgp_types::{From, Items, Name, NoMemory, PeeringId, RouterId};
use lab_keys::{
    TableReader, first_word, further_words, maybe_number, maybe_prefix, maybe_text, number_or,
    push_some, state_in, text_at,
};
use std::alloc::Global;
use toml::Table;

/// Returns the outcome that is wanted of a graft.
fn outcome_wanted(alloc: Global, table: &Table) -> Result<ExpectedValue, NoMemory>
    ensures { IfOk result
        (λ wanted. wanted ≡ Outcome (number_or_lem 32 0 (codes "graft") (table_view table.now)) (text_at_lem (codes "outcome") (table_view table.now))) }
{
    Ok(ExpectedValue::Outcome {
        graft: number_or(0, "graft", table),
        outcome: Name::from_text(alloc, text_at("outcome", table))?,
    })
}

/// Returns the router that is wanted to hold the session of the peering of a number, if one is.
fn at_wanted(routers: &NameIndex, peering: u8, table: &Table) -> Option<ExpectedValue>
    ensures { result ≡ at_wanted_lem routers.now peering (table_view table.now) }
{
    let name = maybe_text("at", table)?;
    let router = RouterId(routers.number_of(name));
    Some(ExpectedValue::At {
        peering: PeeringId(peering),
        router,
    })
}

/// Returns the state that is wanted of the session of the peering of a number, if one is.
fn state_wanted(peering: u8, table: &Table) -> Option<ExpectedValue>
    ensures { result ≡ state_wanted_lem peering (table_view table.now) }
{
    let state = state_in(maybe_text("state", table)?)?;
    Some(ExpectedValue::State {
        peering: PeeringId(peering),
        state,
    })
}

/// Returns how many heard prefixes are wanted of the session of the peering of this number, if a count is.
fn heard_wanted(peering: u8, table: &Table) -> Option<ExpectedValue>
    ensures { result ≡ heard_wanted_lem peering (table_view table.now) }
{
    let count = maybe_number("heard", table)?;
    Some(ExpectedValue::Heard {
        peering: PeeringId(peering),
        count,
    })
}

/// Returns how many told prefixes are wanted of the session of the peering of this number, if a count is.
fn told_wanted(peering: u8, table: &Table) -> Option<ExpectedValue>
    ensures { result ≡ told_wanted_lem peering (table_view table.now) }
{
    let count = maybe_number("told", table)?;
    Some(ExpectedValue::Told {
        peering: PeeringId(peering),
        count,
    })
}

/// Returns what is wanted of the session of the peering of a number.
fn session_wanted(
    alloc: Global,
    routers: &NameIndex,
    peering: u8,
    table: &Table,
) -> Result<Expectation, NoMemory>
    ensures { IfOk result (λ wanted. wanted ≡ session_wanted_lem routers.now peering (table_view table.now)) }
{
    let mut wanted = Items::new(alloc);
    push_some(&mut wanted, at_wanted(routers, peering, table))?;
    push_some(&mut wanted, state_wanted(peering, table))?;
    push_some(&mut wanted, heard_wanted(peering, table))?;
    push_some(&mut wanted, told_wanted(peering, table))?;
    Ok(wanted)
}

/// Returns what is wanted of the session of the peering that a table names.
fn named_session_wanted(
    alloc: Global,
    routers: &NameIndex,
    peerings: &NameIndex,
    table: &Table,
) -> Result<Expectation, NoMemory>
    ensures { IfOk result (λ wanted. wanted
        ≡ session_wanted_lem routers.now (index_of_name peerings.now (text_at_lem (codes "peering") (table_view table.now))) (table_view table.now)) }
{
    let peering = peerings.number_of(text_at("peering", table));
    session_wanted(alloc, routers, peering, table)
}

/// Returns where a best route is to come from, as a text says it.
fn source_in(routers: &NameIndex, peerings: &NameIndex, text: &str) -> Option<From>
    ensures { result ≡ source_in_lem routers.now peerings.now text.now }
{
    if text == "own" {
        return Some(From::Own);
    }
    let name = further_words(text);
    match first_word(text) {
        "peering" => Some(From::Peering(PeeringId(peerings.number_of(name)))),
        "router" => Some(From::Router(RouterId(routers.number_of(name)))),
        _ => None,
    }
}

/// Returns the source that is wanted of a router's best route to a prefix.
fn best_wanted(routers: &NameIndex, peerings: &NameIndex, table: &Table) -> Option<ExpectedValue>
    ensures { result ≡ best_wanted_lem routers.now peerings.now (table_view table.now) }
{
    let prefix = maybe_prefix("prefix", table)?;
    Some(ExpectedValue::Best {
        router: RouterId(routers.number_of(text_at("router", table))),
        prefix,
        from: source_in(routers, peerings, text_at("best", table)),
    })
}

/// Returns a list of the value, if there is one.
fn one_if(alloc: Global, wanted: Option<ExpectedValue>) -> Result<Expectation, NoMemory>
    ensures { IfOk result (λ list. list ≡ one_if_lem wanted) }
{
    let mut list = Items::new(alloc);
    push_some(&mut list, wanted)?;
    Ok(list)
}

/// Returns the values that a table of this form wants of a run.
fn formed_wanted(
    alloc: Global,
    routers: &NameIndex,
    peerings: &NameIndex,
    form: Option<ExpectForm>,
    table: &Table,
) -> Result<Expectation, NoMemory>
    ensures { IfOk result (λ wanted. wanted ≡ wanted_by_form form routers.now peerings.now (table_view table.now)) }
{
    match form {
        None => Ok(Items::new(alloc)),
        Some(ExpectForm::Graft) => Items::one(alloc, outcome_wanted(alloc, table)?),
        Some(ExpectForm::Session) => named_session_wanted(alloc, routers, peerings, table),
        Some(ExpectForm::Route) => one_if(alloc, best_wanted(routers, peerings, table)),
    }
}

/// Reader of expectations, for these routers and peerings.
#[derive(Drop)]
pub(crate) struct ExpectReader<'p> {
    pub routers: &'p NameIndex,
    pub peerings: &'p NameIndex,
}

impl<'p> TableReader<Expectation> for ExpectReader<'p> {
    ghost value_of = { λ r. expectation_of_lem r.routers.now r.peerings.now };

    fn value(&self, alloc: Global, table: &Table) -> Result<Expectation, NoMemory> {
        formed_wanted(alloc, self.routers, self.peerings, form_of(table), table)
    }
}

ghost use Rattle.std.specs.Prelude.{codes};
ghost use Rattle.lab_keys.specs.Values.{number_or as number_or_lem};
ghost use Rattle.lab_tables.specs.declared.expectation.ExpectedValue.TheVariants.{Outcome};
ghost use Rattle.lab_tables.specs.Meanings.{index_of_name};
