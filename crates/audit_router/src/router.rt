//! A home router.

ghost use Rattle.std.specs.Prelude.{◌≡◌, ◌+◌, None, replicate, IfOk};
ghost use Rattle.std.specs.List.{AllByRecursion};
ghost use Rattle.graft_model.specs.First.{first_router};
ghost use Rattle.graft_model.specs.Setups.{IsSetup, routers_in, peerings_in};
ghost use Rattle.actor_configs.specs.Configs.{IsRouterConfigOf};
ghost use Rattle.audit_router.specs.Begins.{AreBegun, CanBegin};
ghost use Rattle.audit_router.specs.Parts.{router_part, setup_of_router, RouterInvariant};

use crate::place::Place;
use actor_configs::RouterConfig;
use audit_tables::Tables;
use bgp_session::Session;
use graft_actors::Known;
use graft_edge::{Items, NoMemory};
use session_value::SessionConfig;
use std::alloc::Global;

/// A home router: its places for the sessions of the peerings, and its tables.
#[derive(Drop)]
pub struct AuditedRouter {
    pub(crate) alloc: Global,
    pub(crate) routers: u32,
    /// The number of sessions for which there is room.
    pub(crate) room: u32,
    /// The place for each peering.
    pub(crate) places: Vec<Place>,
    pub(crate) tables: Tables,
}

/// Returns vacant places for `count` peerings.
fn vacant_places(alloc: Global, count: usize) -> Result<Vec<Place>, NoMemory>
    ensures { IfOk result (λ places. places.items ≡ replicate count Place.Vacant) }
{
    let mut places = Vec::new(alloc);
    for _p in 0..count {
        places.push(Place::Vacant)?;
    }
    Ok(places)
}

/// Makes a session live at a place, without an errand.
fn set_live(place: &mut Place, session: Session)
    ensures { place.new ≡ Place.Live session None }
{
    *place = Place::Live {
        session,
        errand: None,
    };
}

/// Returns `count` places with the sessions that begin in them. Of two sessions for one place, the first is kept.
fn begin_places(
    alloc: Global,
    count: usize,
    sessions: Items<SessionConfig>,
) -> Result<Vec<Place>, NoMemory>
    requires { AllByRecursion (CanBegin count) sessions }
    ensures { IfOk result (λ places. AreBegun count sessions places.items) }
{
    let mut places = vacant_places(alloc, count)?;
    let mut left = sessions.into_vec();
    while let Some(config) = left.pop() {
        let place = usize::from(config.peering.0);
        let session = Session::begin(alloc, config)?;
        set_live(&mut places[place], session);
    }
    Ok(places)
}

impl AuditedRouter {
    /// Returns a router that begins with this configuration, in its laboratory. Its own networks are dirty, and the
    /// sessions that start here have put their OPENs.
    pub fn new(alloc: Global, known: Known, config: RouterConfig) -> Result<AuditedRouter, NoMemory>
        requires setup { IsSetup known.setup }
        requires config { IsRouterConfigOf known.setup config }
        ensures setup { IfOk result (λ router. setup_of_router router ≡ known.setup) }
        ensures number { IfOk result (λ router. router.tables.number ≡ config.number) }
        ensures first { IfOk result (λ router. router_part router ≡ first_router known.setup config.number.0) }
        ensures sound { IfOk result RouterInvariant }
    {
        let RouterConfig {
            number,
            routers,
            room,
            policies,
            rib,
            firsts,
            sessions,
        } = config;
        let peerings = firsts.len();
        let places = begin_places(alloc, peerings, sessions)?;
        Ok(AuditedRouter {
            alloc,
            routers,
            room,
            places,
            tables: Tables::new(alloc, known, number, peerings, routers, policies, rib)?,
        })
    }

    /// Returns the number of the far side of a peering, among all actors.
    pub(crate) fn far_side(&self, p: u32) -> usize
        requires { RouterInvariant self.now }
        ensures { result ≡ routers_in (setup_of_router self.now) + p }
    {
        self.routers as usize + p as usize
    }

    /// Returns the number of the operator, among all actors.
    pub(crate) fn operator(&self) -> usize
        requires { RouterInvariant self.now }
        ensures { result ≡ routers_in (setup_of_router self.now) + peerings_in (setup_of_router self.now) }
    {
        self.routers as usize + self.places.len()
    }
}
