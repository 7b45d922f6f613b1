//! What the sessions begin with that start at a router.

ghost use Rattle.std.specs.Prelude.{◌≡◌, ◌≤◌, ◌++◌, map, length, IfOk, OnOk};
ghost use Rattle.lab_setup.specs.Setups.{peering_config, identifier_at as identifier_at_lem};
ghost use Rattle.node_configs.specs.Tables.{firsts_of as firsts_of_lem, session_if, session_configs_at};

use actor_configs::Firsts;
use graft_edge::{Items, Name, NoMemory, PeeringId, RouterId, TryCopy};
use lab_tables::{LabInput, PeeringInput, RouterInput};
use session_value::SessionConfig;
use std::alloc::Global;
use tcp_seq::Seq;

/// The sequence numbers of the first bytes that both sides of each peering send.
pub fn firsts_of(alloc: Global, peerings: &[PeeringInput]) -> Result<Items<Firsts>, NoMemory>
    ensures { IfOk result (λ firsts. firsts ≡ map firsts_of_lem peerings.now) }
{
    let mut firsts = Items::new(alloc);
    for peering in peerings {
        firsts.push(Firsts {
            home: Seq(peering.home_seq),
            remote: Seq(peering.remote_seq),
        })?;
    }
    Ok(firsts)
}

/// The BGP Identifier of the router of this number, or 0 where there is none.
fn identifier_at(routers: &[RouterInput], number: RouterId) -> u32
    ensures { (input : LabInput) → input.routers ≡ routers.now → result ≡ identifier_at_lem input number.0 }
{
    match routers.get(usize::from(number.0)) {
        Some(router) => router.id,
        None => 0,
    }
}

/// A copy of a name, if there is one.
fn name_of(name: &Option<Name>) -> Result<Option<Name>, NoMemory>
    ensures { IfOk result (λ copy. copy ≡ name.now) }
{
    match name {
        Some(name) => Ok(Some(name.copy()?)),
        None => Ok(None),
    }
}

/// What the session of the peering of this number begins with.
fn session_of(
    input: &LabInput,
    number: PeeringId,
    peering: &PeeringInput,
) -> Result<SessionConfig, NoMemory>
    ensures { IfOk result (λ config. config ≡ peering_config input.now (number.0, peering.now)) }
{
    Ok(SessionConfig {
        peering: number,
        home_as: input.home_as,
        identifier: identifier_at(&input.routers, peering.at),
        remote_as: peering.remote_as,
        offered: peering.as4,
        unicast: peering.unicast,
        home_hold: peering.home_hold,
        remote_address: peering.remote_address,
        local_address: peering.local_address,
        send_first: Seq(peering.home_seq),
        receive_first: Seq(peering.remote_seq),
        import: name_of(&peering.import)?,
        export: name_of(&peering.export)?,
    })
}

/// Adds what the session of a peering begins with, where it starts at this router.
fn push_if(
    sessions: &mut Items<SessionConfig>,
    input: &LabInput,
    router: RouterId,
    number: PeeringId,
    peering: &PeeringInput,
) -> Result<(), NoMemory>
    ensures { OnOk result (sessions.new ≡ sessions.old ++ session_if input.now router.0 (number.0, peering.now)) }
{
    if peering.at == router {
        sessions.push(session_of(input, number, peering)?)?;
    }
    Ok(())
}

/// What the sessions begin with that start at a router, by rising peering. There are at most 256 peerings.
pub fn sessions_at(
    alloc: Global,
    input: &LabInput,
    router: RouterId,
) -> Result<Items<SessionConfig>, NoMemory>
    requires { length input.now.peerings ≤ 256 }
    ensures { IfOk result (λ sessions. sessions ≡ session_configs_at input.now router.0) }
{
    let mut sessions = Items::new(alloc);
    for (i, peering) in input.peerings.iter().enumerate() {
        push_if(&mut sessions, input, router, PeeringId(i as u8), peering)?;
    }
    Ok(sessions)
}
