//! What a router begins with.

ghost use Rattle.std.specs.Prelude.{◌≡◌, ◌<◌, ◌≤◌, map, length, IfOk};
ghost use Rattle.lab_setup.specs.Setups.{setup_of, cost_from as cost_from_lem, costs_from};
ghost use Rattle.actor_configs.specs.Configs.{IsRouterConfigOf};
ghost use Rattle.node_configs.specs.Accepted.{IsAccepted};
ghost use Rattle.node_configs.specs.Tables.{named_policy};

use crate::counted::counts;
use crate::sessions::{firsts_of, sessions_at};
use actor_configs::{NamedPolicy, Policies, RouterConfig};
use graft_edge::{Items, NoMemory, RouterId, TryCopy};
use lab_tables::{CostInput, LabInput, PolicyInput, RouterInput};
use rib_stages::{Numbers, RibConfig};
use route_policy::Policy;
use std::alloc::Global;

/// The interior cost from one router to another: 1 where none is given.
fn cost_from(costs: &[CostInput], from: usize, to: usize) -> u32
    ensures { result ≡ cost_from_lem costs.now from to }
{
    costs
        .iter()
        .find(|cost| usize::from(cost.from.0) == from && usize::from(cost.to.0) == to)
        .map(|cost| cost.cost)
        .unwrap_or(1)
}

/// The interior costs from a router to each router.
fn costs_of(alloc: Global, input: &LabInput, from: usize) -> Result<Numbers, NoMemory>
    ensures { IfOk result (λ costs. costs ≡ costs_from input.now from) }
{
    let mut costs = Numbers::new(alloc);
    for to in 0..input.routers.len() {
        costs.push(cost_from(&input.costs, from, to))?;
    }
    Ok(costs)
}

/// The BGP Identifiers of the routers.
fn identifiers_of(alloc: Global, routers: &[RouterInput]) -> Result<Numbers, NoMemory>
    ensures { IfOk result (λ identifiers. identifiers ≡ map (λ router. router.id) routers.now) }
{
    let mut identifiers = Numbers::new(alloc);
    for router in routers {
        identifiers.push(router.id)?;
    }
    Ok(identifiers)
}

/// The policies of a router.
fn policies_of(alloc: Global, policies: &[PolicyInput]) -> Result<Policies, NoMemory>
    ensures { IfOk result (λ named. named ≡ map named_policy policies.now) }
{
    let mut named = Policies::new(alloc);
    for policy in policies {
        named.push(NamedPolicy {
            name: policy.name.copy()?,
            policy: Policy::new(policy.rules.copy()?),
        })?;
    }
    Ok(named)
}

/// What a router begins with: how many routers there are, its room, policies and networks, the identifiers of all routers and the costs to
/// them, the first numbers of each peering's streams, and the sessions that start there, by rising peering. The input is one that was
/// accepted, and has the router.
pub fn router_config(
    alloc: Global,
    input: &LabInput,
    number: RouterId,
) -> Result<RouterConfig, NoMemory>
    requires accepted { IsAccepted input.now }
    requires there { number.0 < length input.now.routers }
    ensures config { IfOk result (IsRouterConfigOf (setup_of input.now)) }
    ensures number { IfOk result (λ config. config.number ≡ number) }
{
    let (routers, _) = counts(input);
    let router = &input.routers[usize::from(number.0)];
    Ok(RouterConfig {
        number,
        routers,
        room: router.sessions,
        policies: policies_of(alloc, &router.policies)?,
        rib: RibConfig {
            home_as: input.home_as,
            router: number,
            identifiers: identifiers_of(alloc, &input.routers)?,
            costs: costs_of(alloc, input, usize::from(number.0))?,
            networks: router.networks.copy()?,
        },
        firsts: firsts_of(alloc, &input.peerings)?,
        sessions: sessions_at(alloc, input, number)?,
    })
}
