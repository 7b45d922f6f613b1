//! How a router begins.

ghost use Rattle.std.specs.Prelude.{◌≡◌, ◌≤◌, length, IfOk};
ghost use Rattle.std.specs.List.{AllByRecursion};
ghost use Rattle.graft_model.specs.Setups.{IsSetup};
ghost use Rattle.router_core.specs.Beginning.{AreBegun, CanBegin};
ghost use Rattle.router_core.specs.Begins.{BeginsAs};
ghost use Rattle.actor_configs.specs.Configs.{IsRouterConfigOf};

use crate::fields::Fields;
use crate::place::Place;
use actor_configs::RouterConfig;
use bgp_session::Session;
use bgp_types::Items;
use graft_actors::Known;
use graft_edge::NoMemory;
use rib_stages::Rib;
use router_tables::DueSets;
use session_places::Places;
use session_value::SessionConfig;
use std::alloc::Global;

/// Returns `count` places with the sessions that begin in them. Of two sessions for one place, the first is kept. There
/// must be room for all of them.
fn begin_places(
    alloc: Global,
    count: usize,
    room: u32,
    sessions: Items<SessionConfig>,
) -> Result<Places<Place>, NoMemory>
    requires each { AllByRecursion (CanBegin count) sessions }
    requires room { length sessions ≤ room }
    ensures begun { IfOk result (λ places. AreBegun count sessions places.places) }
    ensures room { IfOk result (λ places. places.room ≡ room) }
{
    let mut places = Places::new(alloc, count, room as usize)?;
    let mut left = sessions.into_vec();
    while let Some(config) = left.pop() {
        let place = usize::from(config.peering.0);
        let session = Session::begin(alloc, config)?;
        let errand = None;
        places.remove(place);
        places.put(place, Place::Live { session, errand });
    }
    Ok(places)
}

/// Returns the fields of a router that begins with this configuration.
pub(crate) fn begin(alloc: Global, known: Known, config: RouterConfig) -> Result<Fields, NoMemory>
    requires setup { IsSetup known.setup }
    requires config { IsRouterConfigOf known.setup config }
    ensures { IfOk result (BeginsAs known.setup config) }
{
    let RouterConfig {
        number,
        routers,
        room,
        policies,
        rib,
        firsts,
        sessions,
    } = config;
    let count = firsts.len();
    let home_as = rib.home_as;
    let places = begin_places(alloc, count, room, sessions)?;
    let due_in = DueSets::new(alloc, routers as usize)?;
    let due_out = DueSets::new(alloc, count)?;
    let rib = Rib::new(alloc, rib)?;
    Ok(Fields {
        alloc,
        known,
        number,
        routers,
        room,
        home_as,
        policies,
        firsts,
        rib,
        places,
        due_in,
        due_out,
        turns: 0,
    })
}
