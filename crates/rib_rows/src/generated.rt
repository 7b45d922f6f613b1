//! Generated commands for a router's routes, compared with the plain model.

use crate::plain::{Held, Plain, best_at, put_in, source, take_out};
use crate::tables::tables;
use bgp_types::{
    Attrs, From, Items, NoMemory, Origin, PathPart, Prefix, Route, SharedAttrs, TryCopy,
};
use rib_stages::{InEntry, Rib};
use row_harness::Random;
use std::alloc::Global;

/// The number of commands.
const COMMANDS: u32 = 3_000;

/// Returns one of 16 prefixes: 10.0.0.0/8, and 10.1.0.0/16 to 10.15.0.0/16.
fn prefix(n: u32) -> Option<Prefix> {
    let index = n % 16;
    let len = if index == 0 { 8 } else { 16 };
    Prefix::new(0x0A00_0000 + index * 0x1_0000, len)
}

/// Returns a route with a path of one or two ASes.
fn route(
    alloc: Global,
    as_number: u32,
    is_long: bool,
    med: u32,
    pref: u32,
) -> Result<Route, NoMemory> {
    let mut ases = Items::one(alloc, as_number)?;
    if is_long {
        ases.push(65_010)?;
    }
    Ok(Route {
        attrs: SharedAttrs::new(Attrs {
            origin: Origin::Igp,
            path: Items::one(alloc, PathPart::Sequence(ases))?,
            next_hop: 1,
            med: Some(med),
            atomic: false,
            aggregator: None,
            unknown: Items::new(alloc),
        })?,
        pref,
    })
}

/// Returns one of few routes, so that many are equal by most rules.
fn any_route(alloc: Global, random: &mut Random) -> Result<Route, NoMemory> {
    let as_number = 65_001 + random.below(3);
    let is_long = random.below(2) == 0;
    let med = random.below(3);
    let pref = 100 + random.below(2);
    route(alloc, as_number, is_long, med, pref)
}

/// Returns the entry for an own network of the router. Its route has an empty path.
fn own(alloc: Global, prefix: Prefix) -> Result<Held, NoMemory> {
    Ok(Held {
        from: From::Own,
        prefix,
        route: Route {
            attrs: SharedAttrs::new(Attrs {
                origin: Origin::Igp,
                path: Items::new(alloc),
                next_hop: 0,
                med: None,
                atomic: false,
                aggregator: None,
                unknown: Items::new(alloc),
            })?,
            pref: 100,
        },
        identifier: 0,
    })
}

/// Sets a source's route to a prefix, in both.
fn set_both(rib: &mut Rib, plain: &mut Plain, held: Held) -> Result<(), NoMemory> {
    let route = held.route.copy()?;
    let (from, prefix, identifier) = (held.from, held.prefix, held.identifier);
    put_in(plain, held)?;
    rib.set_in(
        from,
        InEntry {
            prefix,
            route: Some(route),
            identifier,
            address: identifier,
        },
    )
}

/// Removes a source's route to a prefix, in both.
fn lose_both(rib: &mut Rib, plain: &mut Plain, from: From, prefix: Prefix) -> Result<(), NoMemory> {
    take_out(plain, from, Some(prefix));
    rib.set_in(
        from,
        InEntry {
            prefix,
            route: None,
            identifier: 0,
            address: 0,
        },
    )
}

/// Runs a command on both: one in a hundred drops a source, and of the others one in four removes a route.
fn command(
    alloc: Global,
    random: &mut Random,
    rib: &mut Rib,
    plain: &mut Plain,
) -> Result<(), NoMemory> {
    let from = source(random.below(8));
    let Some(prefix) = prefix(random.below(16)) else {
        return Ok(());
    };
    if random.below(100) == 0 {
        take_out(plain, from, None);
        return rib.drop_from(from);
    }
    if random.below(4) == 0 {
        return lose_both(rib, plain, from, prefix);
    }
    let identifier = random.below(4);
    let route = any_route(alloc, random)?;
    let held = Held {
        from,
        prefix,
        route,
        identifier,
    };
    set_both(rib, plain, held)
}

/// Returns whether the best route to a prefix is the plain model's, or the prefix is dirty.
fn is_right(alloc: Global, rib: &Rib, plain: &Plain, prefix: Prefix) -> Result<bool, NoMemory> {
    if rib.is_dirty(prefix) {
        return Ok(true);
    }
    Ok(match (rib.best(prefix), best_at(alloc, plain, prefix)?) {
        (None, None) => true,
        (Some(best), Some(held)) => best.from == held.from && best.route == held.route,
        _ => false,
    })
}

/// Returns whether the best routes to all prefixes are right.
fn are_right(alloc: Global, rib: &Rib, plain: &Plain) -> Result<bool, NoMemory> {
    for n in 0..16u32 {
        let Some(prefix) = prefix(n) else {
            return Ok(false);
        };
        if !is_right(alloc, rib, plain, prefix)? {
            return Ok(false);
        }
    }
    Ok(true)
}

/// Returns whether a route is the best one to a prefix.
fn is_best(rib: &Rib, prefix: Prefix, from: From, route: &Route) -> bool {
    match rib.best(prefix) {
        Some(best) => best.from == from && best.route == *route,
        None => false,
    }
}

/// Decides a prefix that had a best route. Returns whether the call says correctly if the best route changed.
fn decides_another(
    rib: &mut Rib,
    prefix: Prefix,
    from: From,
    route: &Route,
) -> Result<bool, NoMemory> {
    let changed = rib.decide(prefix)?;
    Ok(changed != is_best(rib, prefix, from, route))
}

/// Decides a prefix. Returns whether the call says correctly if the best route changed.
fn decides_rightly(rib: &mut Rib, prefix: Prefix) -> Result<bool, NoMemory> {
    match rib.best(prefix) {
        Some(best) => {
            let (from, route) = (best.from, best.route.copy()?);
            decides_another(rib, prefix, from, &route)
        }
        None => {
            let changed = rib.decide(prefix)?;
            Ok(changed == rib.best(prefix).is_some())
        }
    }
}

/// Decides up to `count` dirty prefixes. Returns whether each answer was right.
fn decide_some(rib: &mut Rib, count: u32) -> Result<bool, NoMemory> {
    let mut right = true;
    for _n in 0..count {
        let Some(prefix) = rib.next_dirty() else {
            return Ok(right);
        };
        right = decides_rightly(rib, prefix)? && right;
    }
    Ok(right)
}

/// Runs one command and up to two decisions. Returns whether all is right then.
fn step(
    alloc: Global,
    random: &mut Random,
    rib: &mut Rib,
    plain: &mut Plain,
) -> Result<bool, NoMemory> {
    command(alloc, random, rib, plain)?;
    let decided = decide_some(rib, random.below(3))?;
    Ok(are_right(alloc, rib, plain)? && decided)
}

/// Returns how many steps went wrong.
fn steps_that_differ(alloc: Global, rib: &mut Rib, plain: &mut Plain) -> Result<u32, NoMemory> {
    let mut random = Random::new(20);
    let mut differ = 0u32;
    for _n in 0..COMMANDS {
        if !step(alloc, &mut random, rib, plain)? {
            differ = differ.saturating_add(1);
        }
    }
    Ok(differ)
}

/// Returns after how many of the commands the routes aren't those of the plain model.
pub fn commands_that_differ(alloc: Global) -> Result<u32, NoMemory> {
    let Some(network) = prefix(1) else {
        return Ok(COMMANDS);
    };
    let mut rib = tables(alloc, &[network])?;
    let mut plain = Vec::new(alloc);
    plain.push(own(alloc, network)?)?;
    steps_that_differ(alloc, &mut rib, &mut plain)
}
