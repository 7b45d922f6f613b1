//! The names of an input.

ghost use Rattle.std.specs.Prelude.{◌≡◌, IfOk, map};
ghost use Rattle.std.specs.List.{flat_map, list_any};
ghost use Rattle.std.specs.Str.{bytes_eq};
ghost use Rattle.lab_hints.specs.Later.{is_router as is_router_lem, is_peering as is_peering_lem, is_policy as is_policy_lem};
ghost use Rattle.lab_hints.specs.Later.{all_names as all_names_lem};

use bgp_types::{Items, Name, NoMemory};
use lab_input::{LabInput, PeeringInput, PolicyInput, RouterInput};
use std::alloc::Global;

fn is_called(name: &str, other: &Name) -> bool
    ensures { result ≡ bytes_eq name.now other.now }
{
    name == other.as_str()
}

/// Returns whether a router has this name.
pub(crate) fn is_router(lab: &LabInput, name: &str) -> bool
    ensures { result ≡ is_router_lem lab.now name.now }
{
    lab.routers
        .iter()
        .any(|router| is_called(name, &router.name))
}

/// Returns whether a peering has this name.
pub(crate) fn is_peering(lab: &LabInput, name: &str) -> bool
    ensures { result ≡ is_peering_lem lab.now name.now }
{
    lab.peerings
        .iter()
        .any(|peering| is_called(name, &peering.name))
}

/// Returns whether a policy of a router has this name.
fn has_policy(name: &str, router: &RouterInput) -> bool
    ensures { result ≡ list_any (λ p. bytes_eq name.now p.name) router.now.policies }
{
    router
        .policies
        .iter()
        .any(|policy| is_called(name, &policy.name))
}

/// Returns whether a policy of some router has this name.
pub(crate) fn is_policy(lab: &LabInput, name: &str) -> bool
    ensures { result ≡ is_policy_lem lab.now name.now }
{
    lab.routers.iter().any(|router| has_policy(name, router))
}

/// Returns the names of routers.
fn router_names<'a>(alloc: Global, routers: &'a [RouterInput]) -> Result<Items<&'a str>, NoMemory>
    ensures { IfOk result (λ names. map (λ name. name.now) names ≡ map (λ r. r.name) routers.now) }
{
    let mut names = Items::new(alloc);
    for router in routers {
        names.push(router.name.as_str())?;
    }
    Ok(names)
}

/// Returns the names of peerings.
fn peering_names<'a>(
    alloc: Global,
    peerings: &'a [PeeringInput],
) -> Result<Items<&'a str>, NoMemory>
    ensures { IfOk result (λ names. map (λ name. name.now) names ≡ map (λ p. p.name) peerings.now) }
{
    let mut names = Items::new(alloc);
    for peering in peerings {
        names.push(peering.name.as_str())?;
    }
    Ok(names)
}

/// Returns the names of policies.
fn policy_names<'a>(alloc: Global, policies: &'a [PolicyInput]) -> Result<Items<&'a str>, NoMemory>
    ensures { IfOk result (λ names. map (λ name. name.now) names ≡ map (λ p. p.name) policies.now) }
{
    let mut names = Items::new(alloc);
    for policy in policies {
        names.push(policy.name.as_str())?;
    }
    Ok(names)
}

/// Returns the names of the policies of routers.
fn policies_of<'a>(alloc: Global, routers: &'a [RouterInput]) -> Result<Items<&'a str>, NoMemory>
    ensures { IfOk result (λ names. map (λ name. name.now) names ≡ flat_map (λ r. map (λ p. p.name) r.policies) routers.now) }
{
    let mut names = Items::new(alloc);
    for router in routers {
        let policies = router.policies.as_slice();
        let called = policy_names(alloc, policies)?;
        names.extend(called.as_slice())?;
    }
    Ok(names)
}

/// Returns the names of routers, of peerings and of the policies of routers.
pub(crate) fn all_names<'a>(alloc: Global, lab: &'a LabInput) -> Result<Items<&'a str>, NoMemory>
    ensures { IfOk result (λ names. map (λ name. name.now) names ≡ all_names_lem lab.now) }
{
    let mut names = router_names(alloc, &lab.routers)?;
    let peerings = peering_names(alloc, &lab.peerings)?;
    names.extend(&peerings)?;
    let policies = policies_of(alloc, &lab.routers)?;
    names.extend(&policies)?;
    Ok(names)
}
