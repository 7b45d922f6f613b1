//! The plain model of a router's routes: a list of entries in no order.

use bgp_types::{From, NoMemory, PeeringId, Prefix, Rank, Route, RouterId};
use decision_core::best;
use route_policy::{own_rank, router_rank, session_rank};
use std::alloc::Global;

/// The home AS.
const HOME: u32 = 65_000;

/// An entry. Its identifier is also its address.
#[derive(Drop)]
pub struct Held {
    pub from: From,
    pub prefix: Prefix,
    pub route: Route,
    pub identifier: u32,
}

/// The entries.
pub type Plain = Vec<Held>;

/// Returns source `n` of the entries, in their order: 5 peerings, then routers 1 to 3.
pub fn source(n: u32) -> From {
    let index = (n % 8) as u8;
    if index < 5 {
        From::Peering(PeeringId(index))
    } else {
        From::Router(RouterId(index - 4))
    }
}

/// Returns whether an entry is from this source and, if a prefix is given, for this prefix.
fn is_at(held: &Held, from: From, prefix: Option<Prefix>) -> bool {
    match prefix {
        Some(prefix) => held.from == from && held.prefix == prefix,
        None => held.from == from,
    }
}

/// Removes a source's entry for a prefix, or all of its entries if no prefix is given.
pub fn take_out(plain: &mut Plain, from: From, prefix: Option<Prefix>) {
    plain.retain(|held| !is_at(held, from, prefix));
}

/// Adds an entry, in place of its source's entry for that prefix.
pub fn put_in(plain: &mut Plain, held: Held) -> Result<(), NoMemory> {
    take_out(plain, held.from, Some(held.prefix));
    plain.push(held)?;
    Ok(())
}

/// Returns a source's entry for a prefix.
fn held_at(plain: &Plain, from: From, prefix: Prefix) -> Option<&Held> {
    plain.iter().find(|held| is_at(held, from, Some(prefix)))
}

/// Returns the rank of an entry. Router n is at cost n; a cost that isn't given, like that of router 3, is 1.
fn rank_of(held: &Held) -> Rank {
    match held.from {
        From::Own => own_rank(HOME),
        From::Peering(_) => session_rank(HOME, held.identifier, held.identifier, &held.route),
        From::Router(q) => {
            let cost = if q.0 == 2 { 2 } else { 1 };
            router_rank(HOME, cost, 0x0AFF_0001 + u32::from(q.0), &held.route)
        }
    }
}

/// Returns the entries for a prefix, in the order of their sources.
fn candidates(alloc: Global, plain: &Plain, prefix: Prefix) -> Result<Vec<&Held>, NoMemory> {
    let mut candidates = Vec::new(alloc);
    if let Some(held) = held_at(plain, From::Own, prefix) {
        candidates.push(held)?;
    }
    for n in 0..8u32 {
        if let Some(held) = held_at(plain, source(n), prefix) {
            candidates.push(held)?;
        }
    }
    Ok(candidates)
}

/// Returns the best entry for a prefix: the choice among all of them, in the order of their sources.
pub fn best_at(alloc: Global, plain: &Plain, prefix: Prefix) -> Result<Option<&Held>, NoMemory> {
    let candidates = candidates(alloc, plain, prefix)?;
    let ranks: Vec<Rank> = candidates.iter().map(|held| rank_of(held)).collect(alloc)?;
    match best(ranks.as_slice()) {
        Some(index) => Ok(candidates.get(index).copied()),
        None => Ok(None),
    }
}
