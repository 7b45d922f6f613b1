//! The candidates of a router for a prefix.

ghost use Rattle.std.specs.Prelude.{◌≡◌, ◌++◌, [], IfOk, OnOk};
ghost use Rattle.std.specs.List.{cons_option, filter_map, list_any};
ghost use Rattle.bgp_types.specs.Prefixes.{same_prefix};
ghost use Rattle.route_policy.specs.Candidates.{candidates, imported as imported_lem, own_candidates, own_route as own_route_lem};
ghost use Rattle.route_policy.specs.Candidates.{session_candidate, router_candidate};
ghost use Rattle.why_view.specs.Winners.{ranks_of as ranks_of_lem};

use crate::entries::{RouterEntry, SessionEntry};
use bgp_types::{
    AsPath, Attrs, From, Items, NoMemory, Origin, Prefix, Rank, RawAttrs, Route, SharedAttrs,
    TryCopy, holds_as,
};
use route_policy::{Best, PREFERENCE, own_rank, router_rank, session_rank};
use std::alloc::Global;

/// A candidate: its source and its route, together with the rank by which the choice is made.
pub type Candidate = (Best, Rank);

/// A network of the router's own.
fn own_route(alloc: Global) -> Result<Route, NoMemory>
    ensures { IfOk result (λ route. route ≡ own_route_lem) }
{
    let attrs = Attrs {
        origin: Origin::Igp,
        path: AsPath::new(alloc),
        next_hop: 0,
        med: None,
        atomic: false,
        aggregator: None,
        unknown: RawAttrs::new(alloc),
    };
    Ok(Route {
        attrs: SharedAttrs::new(attrs)?,
        pref: PREFERENCE,
    })
}

/// Returns the route that a session brings in. A path with the home AS would be a loop and gives none (RFC 4271, section 9.1.2).
pub fn imported(
    home_as: u32,
    prefix: Prefix,
    session: &SessionEntry,
) -> Result<Option<Route>, NoMemory>
    ensures { IfOk result (λ route. route ≡ imported_lem home_as prefix session.now session.now.heard) }
{
    let Some(attrs) = &session.heard else {
        return Ok(None);
    };
    if holds_as(&attrs.path, home_as) {
        return Ok(None);
    }
    let route = Route {
        attrs: attrs.copy()?,
        pref: PREFERENCE,
    };
    match &session.import {
        Some(policy) => policy.apply(prefix, route, session.remote_as),
        None => Ok(Some(route)),
    }
}

/// The candidate that a session gives.
fn of_session(
    home_as: u32,
    prefix: Prefix,
    session: &SessionEntry,
) -> Result<Option<Candidate>, NoMemory>
    ensures { IfOk result (λ candidate. candidate
        ≡ session_candidate home_as session.now (imported_lem home_as prefix session.now session.now.heard)) }
{
    let Some(route) = imported(home_as, prefix, session)? else {
        return Ok(None);
    };
    let rank = session_rank(home_as, session.identifier, session.address, &route);
    let from = From::Peering(session.peering);
    Ok(Some((Best { from, route }, rank)))
}

/// The candidate that another router gives.
fn of_router(home_as: u32, router: &RouterEntry) -> Result<Option<Candidate>, NoMemory>
    ensures { IfOk result (λ candidate. candidate ≡ router_candidate home_as router.now router.now.told) }
{
    let Some(told) = &router.told else {
        return Ok(None);
    };
    let rank = router_rank(home_as, router.cost, router.identifier, told);
    let from = From::Router(router.router);
    let route = told.copy()?;
    Ok(Some((Best { from, route }, rank)))
}

/// Adds a candidate at the end, if there is one.
fn push_if(candidates: &mut Items<Candidate>, candidate: Option<Candidate>) -> Result<(), NoMemory>
    ensures { OnOk result (candidates.new ≡ candidates.old ++ cons_option candidate []) }
{
    match candidate {
        Some(candidate) => candidates.push(candidate),
        None => Ok(()),
    }
}

/// The router's own network, if the prefix is one.
fn own_alone(alloc: Global, home_as: u32, has_network: bool) -> Result<Items<Candidate>, NoMemory>
    ensures { IfOk result (λ candidates. candidates ≡ own_candidates home_as has_network) }
{
    let mut candidates = Items::new(alloc);
    if has_network {
        let best = Best {
            from: From::Own,
            route: own_route(alloc)?,
        };
        candidates.push((best, own_rank(home_as)))?;
    }
    Ok(candidates)
}

/// Adds the candidates of sessions.
fn push_sessions(
    candidates: &mut Items<Candidate>,
    home_as: u32,
    prefix: Prefix,
    sessions: &[SessionEntry],
) -> Result<(), NoMemory>
    ensures { OnOk result (candidates.new ≡ candidates.old
        ++ filter_map (λ session. session_candidate home_as session (imported_lem home_as prefix session session.heard)) sessions.now) }
{
    for session in sessions {
        push_if(candidates, of_session(home_as, prefix, session)?)?;
    }
    Ok(())
}

/// Adds the candidates of other routers.
fn push_routers(
    candidates: &mut Items<Candidate>,
    home_as: u32,
    routers: &[RouterEntry],
) -> Result<(), NoMemory>
    ensures { OnOk result (candidates.new ≡ candidates.old ++ filter_map (λ teller. router_candidate home_as teller teller.told) routers.now) }
{
    for router in routers {
        push_if(candidates, of_router(home_as, router)?)?;
    }
    Ok(())
}

/// Whether a prefix is among a router's networks.
fn has_network(networks: &[Prefix], prefix: Prefix) -> bool
    ensures { result ≡ list_any (same_prefix prefix) networks.now }
{
    networks.iter().any(|network| prefix == *network)
}

/// Returns the candidates: the own network first, then the sessions, then the other routers.
pub fn candidates_of(
    alloc: Global,
    home_as: u32,
    prefix: Prefix,
    networks: &[Prefix],
    sessions: &[SessionEntry],
    routers: &[RouterEntry],
) -> Result<Items<Candidate>, NoMemory>
    ensures { IfOk result (λ found. found ≡ candidates home_as prefix (list_any (same_prefix prefix) networks.now) sessions.now routers.now) }
{
    let mut found = own_alone(alloc, home_as, has_network(networks, prefix))?;
    push_sessions(&mut found, home_as, prefix, sessions)?;
    push_routers(&mut found, home_as, routers)?;
    Ok(found)
}

/// Returns the ranks of candidates.
pub fn ranks_of(alloc: Global, candidates: &[Candidate]) -> Result<Items<Rank>, NoMemory>
    ensures { IfOk result (λ ranks. ranks ≡ ranks_of_lem candidates.now) }
{
    let mut ranks = Items::new(alloc);
    for candidate in candidates {
        ranks.push(candidate.1)?;
    }
    Ok(ranks)
}
