//! The value of a document.

ghost use Rattle.std.specs.Prelude.{◌≡◌, IfOk, map};
ghost use Rattle.toml.specs.View.{table_view};
ghost use Rattle.lab_tables.specs.Documents.{lab_of as lab_of_lem};

use crate::costs::{CostReader, FaultReader};
use crate::expectation::Expectations;
use crate::input::{CostInputs, Faults, LabInput, PeeringInput, PeeringInputs, RouterInput, Steps};
use crate::name_index::NameIndex;
use crate::peerings::PeeringReader;
use crate::routers::RouterTables;
use crate::steps::StepReader;
use crate::wants::ExpectReader;
use bgp_types::{Items, Name, NoMemory, TryCopy};
use lab_keys::{addresses_at, number_or, values_at};
use std::alloc::Global;
use toml::Table;

/// Returns the names of routers.
pub fn router_names(alloc: Global, routers: &[RouterInput]) -> Result<NameIndex, NoMemory>
    ensures { IfOk result (λ names. names ≡ map (λ r. r.name) routers.now) }
{
    let mut names = Items::new(alloc);
    for router in routers {
        names.push(router.name.copy()?)?;
    }
    NameIndex::of(names)
}

/// Returns the names of peerings.
pub fn peering_names(alloc: Global, peerings: &[PeeringInput]) -> Result<NameIndex, NoMemory>
    ensures { IfOk result (λ names. names ≡ map (λ p. p.name) peerings.now) }
{
    let mut names = Items::new(alloc);
    for peering in peerings {
        names.push(peering.name.copy()?)?;
    }
    NameIndex::of(names)
}

/// Returns the costs between these routers.
fn costs_of(alloc: Global, names: &NameIndex, doc: &Table) -> Result<CostInputs, NoMemory>
    ensures { IfOk result (λ costs. costs ≡ map (cost_of names.now) (tables_at (codes "cost") (table_view doc.now))) }
{
    let reader = CostReader { routers: names };
    values_at(&reader, alloc, "cost", doc)
}

/// Returns the peerings at these routers.
fn peerings_of(alloc: Global, names: &NameIndex, doc: &Table) -> Result<PeeringInputs, NoMemory>
    ensures { IfOk result (λ peerings. peerings ≡ map (peering_input (table_view doc.now) names.now) (tables_at (codes "peering") (table_view doc.now))) }
{
    let reader = PeeringReader {
        doc,
        routers: names,
    };
    values_at(&reader, alloc, "peering", doc)
}

/// Returns the planned faults of these peerings.
fn faults_of(alloc: Global, remotes: &NameIndex, doc: &Table) -> Result<Faults, NoMemory>
    ensures { IfOk result (λ faults. faults ≡ map (fault_of remotes.now) (tables_at (codes "fault") (table_view doc.now))) }
{
    let reader = FaultReader { peerings: remotes };
    values_at(&reader, alloc, "fault", doc)
}

/// Returns the steps of these routers and peerings.
fn steps_of(
    alloc: Global,
    names: &NameIndex,
    remotes: &NameIndex,
    peerings: &[PeeringInput],
    doc: &Table,
) -> Result<Steps, NoMemory>
    requires { remotes.now ≡ map (λ p. p.name) peerings.now }
    ensures { IfOk result (λ steps. steps ≡ map (step_of names.now peerings.now) (tables_at (codes "step") (table_view doc.now))) }
{
    let reader = StepReader {
        routers: names,
        names: remotes,
        peerings,
    };
    values_at(&reader, alloc, "step", doc)
}

/// Returns what is expected of these routers and peerings.
fn expects_of(
    alloc: Global,
    names: &NameIndex,
    remotes: &NameIndex,
    doc: &Table,
) -> Result<Expectations, NoMemory>
    ensures { IfOk result (λ expects. expects ≡ map (expectation_of names.now remotes.now) (tables_at (codes "expect") (table_view doc.now))) }
{
    let reader = ExpectReader {
        routers: names,
        peerings: remotes,
    };
    values_at(&reader, alloc, "expect", doc)
}

/// Returns the value of a document, with defaults filled in and names resolved.
pub fn lab_of(alloc: Global, doc: &Table) -> Result<LabInput, NoMemory>
    ensures { IfOk result (λ lab. lab ≡ lab_of_lem (table_view doc.now)) }
{
    let routers = values_at(&RouterTables, alloc, "router", doc)?;
    let names = router_names(alloc, &routers)?;
    let costs = costs_of(alloc, &names, doc)?;
    let peerings = peerings_of(alloc, &names, doc)?;
    let remotes = peering_names(alloc, &peerings)?;
    let faults = faults_of(alloc, &remotes, doc)?;
    let steps = steps_of(alloc, &names, &remotes, &peerings, doc)?;
    let trace = addresses_at(alloc, "trace", doc)?;
    let expects = expects_of(alloc, &names, &remotes, doc)?;
    Ok(LabInput {
        home_as: number_or(0, "home_as", doc),
        routers,
        costs,
        peerings,
        faults,
        steps,
        trace,
        expects,
    })
}

ghost use Rattle.std.specs.Prelude.{codes};
ghost use Rattle.lab_keys.specs.Values.{tables_at};
ghost use Rattle.lab_tables.specs.Peerings.{cost_of, peering_input, fault_of};
ghost use Rattle.lab_tables.specs.Scripts.{step_of};
ghost use Rattle.lab_tables.specs.Expects.{expectation_of};
