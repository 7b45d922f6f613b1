//! The policies of a session's name at the routers.

ghost use Rattle.std.specs.Prelude.{◌≡◌, ◌++◌, [], find, option_map, option_copied, IfOk, OnOk};
ghost use Rattle.std.specs.List.{cons_option, filter_map};
ghost use Rattle.std.specs.Str.{bytes_eq};
ghost use Rattle.lab_answers.specs.Policies.{policy_rules, rules_of, imports_of as imports_of_lem};

use crate::imports::Imports;
use graft_edge::{Items, Name, NoMemory, TryCopy};
use lab_tables::{LabInput, PeeringInput, PolicyInput, RouterInput};
use route_policy::Policy;
use std::alloc::Global;

/// Whether a policy has this name.
fn is_called(name: &str, policy: &PolicyInput) -> bool
    ensures { result ≡ bytes_eq name.now policy.now.name }
{
    name == policy.name.as_str()
}

/// The first policy of this name.
fn policy_called<'p>(policies: &'p [PolicyInput], name: &str) -> Option<&'p PolicyInput>
    ensures { option_copied result ≡ find (λ policy. bytes_eq name.now policy.name) policies.now }
{
    policies.iter().find(|policy| is_called(name, policy))
}

/// A router's policy of this name.
fn policy_at(router: &RouterInput, name: &str) -> Result<Option<Policy>, NoMemory>
    ensures { IfOk result (λ policy. policy ≡ policy_rules name.now router.now) }
{
    match policy_called(&router.policies, name) {
        Some(policy) => Ok(Some(Policy::new(policy.rules.copy()?))),
        None => Ok(None),
    }
}

/// Adds a policy at the end, if there is one.
fn push_if(policies: &mut Items<Policy>, policy: Option<Policy>) -> Result<(), NoMemory>
    ensures { OnOk result (policies.new ≡ policies.old ++ cons_option policy []) }
{
    match policy {
        Some(policy) => policies.push(policy),
        None => Ok(()),
    }
}

/// The policies of this name that routers have.
fn policies_called(
    alloc: Global,
    routers: &[RouterInput],
    name: &str,
) -> Result<Items<Policy>, NoMemory>
    ensures { IfOk result (λ policies. policies ≡ filter_map (policy_rules name.now) routers.now) }
{
    let mut policies = Items::new(alloc);
    for router in routers {
        push_if(&mut policies, policy_at(router, name)?)?;
    }
    Ok(policies)
}

/// The policies of a session's name that routers have, none where the session names no policy.
fn policies_of(
    alloc: Global,
    routers: &[RouterInput],
    name: &Option<Name>,
) -> Result<Items<Policy>, NoMemory>
    ensures { IfOk result (λ policies. policies ≡ filter_map (rules_of name.now) routers.now) }
{
    match name {
        Some(name) => policies_called(alloc, routers, name.as_str()),
        None => Ok(Items::new(alloc)),
    }
}

/// How the routers let in what the remote of a peering announces.
pub(crate) fn imports_of(
    alloc: Global,
    input: &LabInput,
    peering: &PeeringInput,
) -> Result<Imports, NoMemory>
    ensures { IfOk result (λ imports. imports ≡ imports_of_lem input.now peering.now) }
{
    Ok(Imports {
        home_as: input.home_as,
        remote_as: peering.remote_as,
        policies: policies_of(alloc, &input.routers, &peering.import)?,
    })
}
