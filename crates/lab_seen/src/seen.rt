//! What is seen of a laboratory whose net has finished.

ghost use Rattle.std.specs.Prelude.{◌≡◌, ◌≤◌, ◌+◌, [], option_copied, slice_get, slice_index_or, IfOk};
ghost use Rattle.std.specs.List.{flat_map, range_with_len};
ghost use Rattle.graft_model.specs.Setups.{Setup, routers_in};
ghost use Rattle.graft_model.specs.Parts.{World};
ghost use Rattle.journal_merge.specs.Merges.{Interleaves};
ghost use Rattle.lab_setup.specs.Setups.{setup_of};
ghost use Rattle.node_configs.specs.Accepted.{IsAccepted};
ghost use Rattle.lab_seen.specs.Finished.{IsFinished};
ghost use Rattle.lab_seen.specs.Found.{router_in, far_in, operator_in, router_tables_of, fars_of as fars_of_lem, log_in};
ghost use Rattle.lab_seen.specs.Seen.{Observed};

use crate::found::{by_peering, sessions_of};
use crate::tables::table_of;
use crate::views::far_view;
use far_side::Far;
use graft_edge::{Items, NoMemory};
use graft_steps::GraftLog;
use journal_merge::merge;
use lab_report::{FarView, Lab, RouterTable, RunEnd};
use lab_tables::LabInput;
use ring_net::Parts;
use router_core::Router;
use std::alloc::Global;
use world_nodes::Node;

/// Returns the router of this number, if the actor is one.
fn router_at(actors: &[Node], number: usize) -> Option<&Router>
    ensures { option_copied result ≡ router_in (slice_get actors.now number) }
{
    match actors.get(number) {
        Some(Node::Router(router)) => Some(router),
        _ => None,
    }
}

/// Returns the far side of this number, if the actor is one.
fn far_at(actors: &[Node], number: usize) -> Option<&Far>
    ensures { option_copied result ≡ far_in (slice_get actors.now number) }
{
    match actors.get(number) {
        Some(Node::Far(far)) => Some(far),
        _ => None,
    }
}

/// Returns the tables of the routers, which are the first actors.
fn tables_of(alloc: Global, actors: &[Node], routers: usize) -> Result<Items<RouterTable>, NoMemory>
    requires { routers ≤ 256 }
    ensures { IfOk result (λ tables. (setup : Setup) → routers_in setup ≡ routers
        → tables ≡ flat_map (λ r. router_tables_of setup (router_in (slice_get actors.now r))) (range_with_len 0 routers)) }
{
    let mut tables = Items::new(alloc);
    for number in 0..routers {
        if let Some(router) = router_at(actors, number) {
            tables.push(table_of(alloc, router.rib(), routers)?)?;
        }
    }
    Ok(tables)
}

/// Returns what is seen of the remotes. Their far sides are the actors after the routers.
fn fars_of(
    alloc: Global,
    actors: &[Node],
    routers: usize,
    peerings: usize,
) -> Result<Items<FarView>, NoMemory>
    requires few { (routers ≤ 256) × (peerings ≤ 256) }
    ensures { IfOk result (λ fars. fars ≡ flat_map (λ p. fars_of_lem (far_in (slice_get actors.now (routers + p)))) (range_with_len 0 peerings)) }
{
    let mut fars = Items::new(alloc);
    for number in 0..peerings {
        if let Some(far) = far_at(actors, routers + number) {
            fars.push(far_view(alloc, far)?)?;
        }
    }
    Ok(fars)
}

/// Returns the log of the operator, which must be the actor of this number.
fn log_at(alloc: Global, actors: &[Node], number: usize) -> Result<GraftLog, NoMemory>
    ensures { IfOk result (λ log. log ≡ log_in (operator_in (slice_get actors.now number))) }
{
    match actors.get(number) {
        Some(Node::Operator(operator)) => operator.log(),
        _ => Ok(Items::new(alloc)),
    }
}

/// Returns what is seen of an input's laboratory whose net has finished: how its run ended, the log of grafts, where
/// each session is and its view, what is seen of each remote, the tables of each router, and the merged journal, with
/// the marks and the rounds of its run. The input must be one that was accepted.
pub fn lab_of(
    alloc: Global,
    input: LabInput,
    end: RunEnd,
    parts: Parts<Node>,
    rounds: Items<u32>,
) -> Result<Lab, NoMemory>
    requires accepted { IsAccepted input }
    ensures input { IfOk result (λ lab. lab.input ≡ input) }
    ensures end { IfOk result (λ lab. lab.end ≡ end) }
    ensures marks { IfOk result (λ lab. lab.marks ≡ parts.marks) }
    ensures rounds { IfOk result (λ lab. lab.rounds ≡ rounds) }
    ensures journal { IfOk result (λ lab. Interleaves (λ k. slice_index_or parts.journals k []) lab.journal) }
    ensures observed { IfOk result (λ lab. (w : World) → IsFinished (setup_of input) w parts.actors parts.left → Observed (setup_of input) w lab) }
{
    let Parts {
        actors,
        journals,
        marks,
        left,
    } = parts;
    let routers = input.routers.len();
    let peerings = input.peerings.len();
    let log = log_at(alloc, actors.as_slice(), routers + peerings)?;
    let far = fars_of(alloc, actors.as_slice(), routers, peerings)?;
    let tables = tables_of(alloc, actors.as_slice(), routers)?;
    let found = sessions_of(alloc, actors, left, routers)?;
    let (placement, sessions) = by_peering(alloc, found, peerings)?;
    let journal = merge(alloc, journals)?;
    Ok(Lab {
        input,
        end,
        log,
        placement,
        sessions,
        far,
        tables,
        journal,
        marks,
        rounds,
    })
}
