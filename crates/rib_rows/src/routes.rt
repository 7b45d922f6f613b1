//! The route of a row: `path AS from ADDRESS`, and, if it has them, `med NUMBER`, `community OCTETS`, and `import
//! NUMBER`, the preference that the import policy sets.

use crate::words::{address, number_after};
use anyhow::{Context, Result};
use bgp_types::{
    Attrs, Items, NoMemory, Origin, PathPart, Prefix, RawAttr, RawAttrs, Route, SharedAttrs,
};
use route_policy::{Policy, Rule};
use row_harness::value;
use std::alloc::Global;

/// The numbers of a route.
#[derive(Clone, Copy, Debug)]
struct RouteNumbers {
    as_number: u32,
    med: Option<u32>,
    next_hop: u32,
}

fn numbers_of(words: &[&str]) -> Result<RouteNumbers> {
    let as_number = number_after(words, "path")?.context("a path")?;
    let med = number_after(words, "med")?;
    let next_hop = address(words, "from")?;
    Ok(RouteNumbers {
        as_number,
        med,
        next_hop,
    })
}

/// Returns the community of a route (RFC 1997), which is an attribute of an unknown type.
fn community_of(alloc: Global, words: &[&str]) -> Result<RawAttrs> {
    let Some(octets) = value(words, "community") else {
        return Ok(Items::new(alloc));
    };
    let bytes = Items::from_vec(hex::decode(alloc, octets)?);
    Ok(Items::one(
        alloc,
        RawAttr {
            kind: 8,
            partial: false,
            bytes,
        },
    )?)
}

/// Returns the route with these numbers.
fn route_with(alloc: Global, numbers: RouteNumbers, unknown: RawAttrs) -> Result<Route, NoMemory> {
    let ases = Items::one(alloc, numbers.as_number)?;
    Ok(Route {
        attrs: SharedAttrs::new(Attrs {
            origin: Origin::Igp,
            path: Items::one(alloc, PathPart::Sequence(ases))?,
            next_hop: numbers.next_hop,
            med: numbers.med,
            atomic: false,
            aggregator: None,
            unknown,
        })?,
        pref: 100,
    })
}

/// Returns the policy of one rule, which sets the preference, or of no rule.
fn policy_of(alloc: Global, pref: Option<u32>) -> Result<Policy, NoMemory> {
    if pref.is_none() {
        return Ok(Policy::new(Items::new(alloc)));
    }
    let rules = Items::one(
        alloc,
        Rule {
            within: None,
            has_as: None,
            origin: None,
            deny: false,
            pref,
            med: None,
            prepend: 0,
        },
    )?;
    Ok(Policy::new(rules))
}

/// Returns the route of a row, as its import policy leaves it.
pub fn route_of(alloc: Global, words: &[&str], prefix: Prefix) -> Result<Option<Route>> {
    let numbers = numbers_of(words)?;
    let pref = number_after(words, "import")?;
    let unknown = community_of(alloc, words)?;
    let route = route_with(alloc, numbers, unknown)?;
    let policy = policy_of(alloc, pref)?;
    Ok(policy.apply(prefix, route, numbers.as_number)?)
}
