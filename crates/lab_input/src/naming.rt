//! The names of a whole document.

ghost use Rattle.std.specs.Prelude.{◌≡◌, [], ◌∷◌, map, codes, IfOk};
ghost use Rattle.toml.specs.View.{table_view};
ghost use Rattle.lab_keys.specs.Kinds.{first_of};
ghost use Rattle.lab_keys.specs.Values.{tables_at};
ghost use Rattle.lab_tables.specs.Documents.{lab_of as lab_of_lem};
ghost use Rattle.lab_input.specs.Names.{each_after, router_again, cost_named, peering_named, fault_named, step_named, expect_named, named as named_lem};

use crate::bad::BadInput;
use crate::expects::expects_named;
use crate::faults::faults_named;
use crate::named::{costs_named, peerings_named, steps_named};
use crate::names::routers_again;
use crate::told::first;
use bgp_types::NoMemory;
use lab_keys::tables_in;
use lab_tables::{LabInput, NameIndex, RouterInput, peering_names, router_names};
use std::alloc::Global;
use toml::Table;

/// Returns the first wrong name of the costs of a document.
fn costs_in(alloc: Global, doc: &Table, names: &NameIndex) -> Result<Option<BadInput>, NoMemory>
    ensures { IfOk result (λ bad. bad ≡ each_after (cost_named names.now) [] (tables_at (codes "cost") (table_view doc.now))) }
{
    let tables = tables_in(alloc, "cost", doc)?;
    let bad = costs_named(alloc, names, &tables)?;
    Ok(bad)
}

/// Returns the first wrong name of the peerings of a document.
fn peerings_in(
    alloc: Global,
    doc: &Table,
    routers: &[RouterInput],
    names: &NameIndex,
) -> Result<Option<BadInput>, NoMemory>
    requires { names.now ≡ map (λ r. r.name) routers.now }
    ensures { IfOk result (λ bad. bad ≡ each_after (peering_named routers.now) [] (tables_at (codes "peering") (table_view doc.now))) }
{
    let tables = tables_in(alloc, "peering", doc)?;
    let bad = peerings_named(alloc, routers, names, &tables)?;
    Ok(bad)
}

/// Returns the first wrong name of the planned faults of a document.
fn faults_in(alloc: Global, doc: &Table, remotes: &NameIndex) -> Result<Option<BadInput>, NoMemory>
    ensures { IfOk result (λ bad. bad ≡ each_after (fault_named remotes.now) [] (tables_at (codes "fault") (table_view doc.now))) }
{
    let tables = tables_in(alloc, "fault", doc)?;
    let bad = faults_named(alloc, remotes, &tables)?;
    Ok(bad)
}

/// Returns the first wrong name of the steps of a document.
fn steps_in(
    alloc: Global,
    doc: &Table,
    names: &NameIndex,
    remotes: &NameIndex,
) -> Result<Option<BadInput>, NoMemory>
    ensures { IfOk result (λ bad. bad ≡ first_of (map (step_named names.now remotes.now) (tables_at (codes "step") (table_view doc.now)))) }
{
    let tables = tables_in(alloc, "step", doc)?;
    let bad = steps_named(alloc, names, remotes, &tables)?;
    Ok(bad)
}

/// Returns the first wrong name of the expectations of a document.
fn expects_in(
    alloc: Global,
    doc: &Table,
    names: &NameIndex,
    remotes: &NameIndex,
) -> Result<Option<BadInput>, NoMemory>
    ensures { IfOk result (λ bad. bad ≡ first_of (map (expect_named names.now remotes.now) (tables_at (codes "expect") (table_view doc.now)))) }
{
    let tables = tables_in(alloc, "expect", doc)?;
    let bad = expects_named(alloc, names, remotes, &tables)?;
    Ok(bad)
}

/// Returns the first wrong name of routers, costs and peerings.
fn network_named(
    alloc: Global,
    doc: &Table,
    routers: &[RouterInput],
    names: &NameIndex,
) -> Result<Option<BadInput>, NoMemory>
    requires { names.now ≡ map (λ r. r.name) routers.now }
    ensures { IfOk result (λ bad. bad ≡ first_of (each_after router_again [] routers.now
        ∷ each_after (cost_named names.now) [] (tables_at (codes "cost") (table_view doc.now))
        ∷ each_after (peering_named routers.now) [] (tables_at (codes "peering") (table_view doc.now)) ∷ [])) }
{
    let router = routers_again(alloc, routers)?;
    let cost = costs_in(alloc, doc, names)?;
    let peering = peerings_in(alloc, doc, routers, names)?;
    Ok(first(router, first(cost, first(peering, None))))
}

/// Returns the first wrong name of planned faults, steps and expectations.
fn script_named(
    alloc: Global,
    doc: &Table,
    names: &NameIndex,
    remotes: &NameIndex,
) -> Result<Option<BadInput>, NoMemory>
    ensures { IfOk result (λ bad. bad ≡ first_of (each_after (fault_named remotes.now) [] (tables_at (codes "fault") (table_view doc.now))
        ∷ first_of (map (step_named names.now remotes.now) (tables_at (codes "step") (table_view doc.now)))
        ∷ first_of (map (expect_named names.now remotes.now) (tables_at (codes "expect") (table_view doc.now))) ∷ [])) }
{
    let fault = faults_in(alloc, doc, remotes)?;
    let step = steps_in(alloc, doc, names, remotes)?;
    let expect = expects_in(alloc, doc, names, remotes)?;
    Ok(first(fault, first(step, first(expect, None))))
}

/// Returns the first name of a document that is repeated or unknown.
pub(crate) fn named(
    alloc: Global,
    doc: &Table,
    lab: &LabInput,
) -> Result<Option<BadInput>, NoMemory>
    requires { lab.now ≡ lab_of_lem (table_view doc.now) }
    ensures { IfOk result (λ bad. bad ≡ named_lem (table_view doc.now)) }
{
    let names = router_names(alloc, &lab.routers)?;
    let remotes = peering_names(alloc, &lab.peerings)?;
    let network = network_named(alloc, doc, &lab.routers, &names)?;
    let script = script_named(alloc, doc, &names, &remotes)?;
    Ok(first(network, script))
}
