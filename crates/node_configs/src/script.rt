//! The script that the operator works through.

ghost use Rattle.std.specs.Prelude.{◌≡◌, ◌++◌, map, IfOk, OnOk};
ghost use Rattle.lab_setup.specs.Setups.{setup_of};
ghost use Rattle.actor_configs.specs.Scripts.{IsScriptOf, IsWorkable};
ghost use Rattle.node_configs.specs.Accepted.{IsAccepted};
ghost use Rattle.node_configs.specs.Orders.{script_order, script_orders, is_end as is_end_lem, end_after};

use actor_configs::{Rooms, RouterIds, Script, ScriptStep, ScriptSteps};
use graft_edge::NoMemory;
use lab_tables::{LabInput, PeeringInput, RouterInput, Step};
use std::alloc::Global;

/// For how many sessions each router has room.
fn rooms_of(alloc: Global, routers: &[RouterInput]) -> Result<Rooms, NoMemory>
    ensures { IfOk result (λ rooms. rooms ≡ map (λ router. router.sessions) routers.now) }
{
    let mut rooms = Rooms::new(alloc);
    for router in routers {
        rooms.push(router.sessions)?;
    }
    Ok(rooms)
}

/// The router at which the session of each peering starts.
fn starts_of(alloc: Global, peerings: &[PeeringInput]) -> Result<RouterIds, NoMemory>
    ensures { IfOk result (λ starts. starts ≡ map (λ peering. peering.at) peerings.now) }
{
    let mut starts = RouterIds::new(alloc);
    for peering in peerings {
        starts.push(peering.at)?;
    }
    Ok(starts)
}

fn order_of(step: &Step) -> ScriptStep
    ensures { result ≡ script_order step.now }
{
    match step {
        Step::Announce { peering, .. } => ScriptStep::Say { peering: *peering },
        Step::Withdraw { peering, .. } => ScriptStep::Say { peering: *peering },
        Step::Raw { peering, .. } => ScriptStep::Say { peering: *peering },
        Step::Graft { peering, target } => ScriptStep::Graft {
            peering: *peering,
            target: *target,
        },
        Step::Settle { .. } => ScriptStep::Settle,
        Step::Evacuate { router } => ScriptStep::Evacuate { router: *router },
    }
}

/// Whether a step ends a group.
fn is_end(step: Option<ScriptStep>) -> bool
    ensures { result ≡ is_end_lem step }
{
    match step {
        Some(ScriptStep::Settle) => true,
        Some(ScriptStep::Say { .. }) => false,
        Some(ScriptStep::Graft { .. }) => false,
        Some(ScriptStep::Evacuate { .. }) => false,
        None => false,
    }
}

/// Ends the last group, where the last step doesn't.
fn end(orders: &mut ScriptSteps) -> Result<(), NoMemory>
    ensures { OnOk result (orders.new ≡ orders.old ++ end_after orders.old) }
{
    let last = orders.as_slice().last().copied();
    if is_end(last) {
        return Ok(());
    }
    orders.push(ScriptStep::Settle)
}

fn orders_of(alloc: Global, steps: &[Step]) -> Result<ScriptSteps, NoMemory>
    ensures { IfOk result (λ orders. orders ≡ script_orders steps.now) }
{
    let mut orders = ScriptSteps::new(alloc);
    for step in steps {
        orders.push(order_of(step))?;
    }
    end(&mut orders)?;
    Ok(orders)
}

/// The script that the operator works through: the rooms of the routers, the starts of the peerings, and the steps, of which the last one
/// ends a group. The input is one that was accepted.
pub fn operator_script(alloc: Global, input: &LabInput) -> Result<Script, NoMemory>
    requires accepted { IsAccepted input.now }
    ensures script { IfOk result (IsScriptOf (setup_of input.now)) }
    ensures workable { IfOk result IsWorkable }
{
    Ok(Script {
        rooms: rooms_of(alloc, &input.routers)?,
        starts: starts_of(alloc, &input.peerings)?,
        steps: orders_of(alloc, &input.steps)?,
    })
}
