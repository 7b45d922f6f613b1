//! The routes of a router, and the calls that rows make.

use crate::plans::planned;
use crate::routes::route_of;
use crate::texts::{from_text, or_nothing, push_prefix, push_route};
use crate::words::{address, number_after, prefix, source};
use anyhow::{Context, Result, bail};
use bgp_types::{From, Items, NoMemory, Prefix, PrefixList, RouterId};
use rib_stages::{InEntry, Numbers, Rib, RibConfig};
use row_harness::{Table, small, word};
use std::alloc::Global;

/// Returns the routes of router 0 of AS 65000. The identifiers of routers 0 to 3 are 10.255.0.1 to 10.255.0.4, and the
/// costs to routers 0 to 2 are 0, 1 and 2.
pub fn tables(alloc: Global, networks: &[Prefix]) -> Result<Rib, NoMemory> {
    let networks = Items::from_slice(alloc, networks)?;
    let identifiers = Items::from_slice(
        alloc,
        &[0x0AFF_0001, 0x0AFF_0002, 0x0AFF_0003, 0x0AFF_0004],
    )?;
    let costs = Items::from_slice(alloc, &[0, 1, 2])?;
    of_config(alloc, identifiers, costs, networks)
}

/// Returns the routes of router 0 with these identifiers, costs and own networks.
fn of_config(
    alloc: Global,
    identifiers: Numbers,
    costs: Numbers,
    networks: PrefixList,
) -> Result<Rib, NoMemory> {
    Rib::new(
        alloc,
        RibConfig {
            home_as: 65_000,
            router: RouterId(0),
            identifiers,
            costs,
            networks,
        },
    )
}

/// Starts again, with the own networks that the row has from its second word on.
fn begin(alloc: Global, rib: &mut Rib, words: &[&str]) -> Result<()> {
    let mut networks: Vec<Prefix> = Vec::new(alloc);
    for index in 1..words.len() {
        networks.push(prefix(words, index)?)?;
    }
    *rib = tables(alloc, networks.as_slice())?;
    Ok(())
}

/// Sets a route that a peering gives or another router tells.
fn hear(alloc: Global, rib: &mut Rib, words: &[&str]) -> Result<()> {
    let from = source(words)?;
    let prefix = prefix(words, 3)?;
    let address = address(words, "from")?;
    let route = route_of(alloc, words, prefix)?;
    let entry = InEntry {
        prefix,
        route,
        identifier: address,
        address,
    };
    rib.set_in(from, entry)?;
    Ok(())
}

/// Removes the route to a prefix that a peering gave or another router told.
fn lose(rib: &mut Rib, words: &[&str]) -> Result<()> {
    let from = source(words)?;
    let entry = InEntry {
        prefix: prefix(words, 3)?,
        route: None,
        identifier: 0,
        address: 0,
    };
    rib.set_in(from, entry)?;
    Ok(())
}

/// Returns the least dirty prefix.
fn least_dirty(alloc: Global, rib: &Rib) -> Result<String> {
    Ok(match rib.next_dirty() {
        Some(prefix) => format!(in alloc; "dirty {prefix}")?,
        None => format!(in alloc; "clean")?,
    })
}

/// Decides a prefix.
fn decide(rib: &mut Rib, prefix: Prefix, text: &mut String) -> Result<()> {
    let changed = rib.decide(prefix)?;
    push_prefix(text, prefix)?;
    text.push_str(if changed { " changed" } else { " same" })?;
    Ok(())
}

/// Decides up to 100 dirty prefixes.
fn decide_all(alloc: Global, rib: &mut Rib) -> Result<String> {
    let mut text = String::new(alloc);
    for _n in 0..100u32 {
        let Some(prefix) = rib.next_dirty() else {
            break;
        };
        decide(rib, prefix, &mut text)?;
    }
    Ok(or_nothing(text)?)
}

/// Returns the best route to a prefix, and its source.
fn best(alloc: Global, rib: &Rib, prefix: Prefix) -> Result<String> {
    let Some(best) = rib.best(prefix) else {
        return Ok(format!(in alloc; "nothing")?);
    };
    let mut text = from_text(alloc, best.from)?;
    push_route(&mut text, &best.route)?;
    Ok(text)
}

/// Returns the prefixes of the routes from a source, checked against the steps from one to the next.
fn entries(alloc: Global, rib: &Rib, from: From) -> Result<String> {
    let mut text = String::new(alloc);
    let mut last = None;
    for prefix in rib.entry_prefixes(from)?.iter() {
        if rib.next_entry(from, last) != Some(*prefix) {
            bail!("the list has another prefix");
        }
        push_prefix(&mut text, *prefix)?;
        last = Some(*prefix);
    }
    if rib.next_entry(from, last).is_some() {
        bail!("the list ends too early");
    }
    Ok(or_nothing(text)?)
}

/// Returns what the other routers are told about a prefix.
fn told_inside(alloc: Global, rib: &Rib, prefix: Prefix) -> Result<String> {
    let Some(route) = rib.tell_in(prefix)? else {
        return Ok(format!(in alloc; "nothing")?);
    };
    let mut text = String::new(alloc);
    push_route(&mut text, &route)?;
    if let Some(med) = route.attrs.med {
        write!(text, " med {med}")?;
    }
    Ok(text)
}

/// Returns what is told on a session. Its number is the third word of the row, and the AS of its remote follows `to`.
fn told_outside(alloc: Global, rib: &Rib, words: &[&str]) -> Result<String> {
    let remote_as = number_after(words, "to")?.context("an AS")?;
    planned(alloc, rib, small(words, 2)?, remote_as)
}

/// Returns the answer to a row that looks at the routes.
fn look(alloc: Global, rib: &Rib, words: &[&str]) -> Result<String> {
    match word(words, 0) {
        "best" => best(alloc, rib, prefix(words, 1)?),
        "own" => entries(alloc, rib, From::Own),
        "entries" => entries(alloc, rib, source(words)?),
        "inside" => told_inside(alloc, rib, prefix(words, 1)?),
        "outside" => told_outside(alloc, rib, words),
        _ => bail!("a call"),
    }
}

/// The routes that the rows change and look at.
#[derive(Drop)]
pub struct RouterTables {
    rib: Rib,
}

impl RouterTables {
    pub fn new(alloc: Global) -> Result<RouterTables, NoMemory> {
        Ok(RouterTables {
            rib: tables(alloc, &[])?,
        })
    }
}

impl Table for RouterTables {
    /// Returns the answer to a row. One that changes the routes answers with the least dirty prefix.
    fn answer(&mut self, alloc: Global, words: &[&str]) -> Result<String> {
        let rib = &mut self.rib;
        match word(words, 0) {
            "router" => begin(alloc, rib, words)?,
            "hear" => hear(alloc, rib, words)?,
            "lose" => lose(rib, words)?,
            "drop" => rib.drop_from(source(words)?)?,
            "mark" => rib.mark(prefix(words, 1)?)?,
            "decide" => return decide_all(alloc, rib),
            _ => return look(alloc, rib, words),
        }
        least_dirty(alloc, rib)
    }
}
