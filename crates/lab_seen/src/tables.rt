//! The tables of a router, as they are seen.

ghost use Rattle.std.specs.Prelude.{ℕ, ◌≡◌, ◌++◌, ◌≤◌, map, IfOk, OnOk};
ghost use Rattle.std.specs.FinMap as table;
ghost use Rattle.std.specs.List.{flat_map, range_with_len};
ghost use Rattle.rib_stages.specs.Values.{rib_of};
ghost use Rattle.lab_seen.specs.Seen.{best_entry, told_entry};

use bgp_types::{From, Prefix, Route};
use graft_edge::{Items, NoMemory, RouterId, TryCopy};
use lab_report::{BestEntry, RouterTable, ToldEntry};
use rib_stages::Rib;
use route_policy::Best;
use std::alloc::Global;

/// Returns the best route to a prefix, as it is seen.
fn best_seen(prefix: Prefix, best: &Best) -> Result<BestEntry, NoMemory>
    ensures { IfOk result (λ entry. entry ≡ best_entry (prefix, best.now)) }
{
    Ok(BestEntry {
        prefix,
        from: best.from,
        route: best.route.copy()?,
    })
}

/// Returns the best routes of a router, in ascending order of prefix.
fn best_of(alloc: Global, rib: &Rib) -> Result<Items<BestEntry>, NoMemory>
    ensures { IfOk result (λ best. best ≡ map best_entry (table.entries rib.now.best)) }
{
    let mut best = Items::new(alloc);
    for prefix in rib.best_prefixes()?.iter() {
        if let Some(route) = rib.best(*prefix) {
            best.push(best_seen(*prefix, route)?)?;
        }
    }
    Ok(best)
}

/// Returns what a router told about a prefix, as it is seen.
fn told_seen(router: RouterId, prefix: Prefix, route: &Route) -> Result<ToldEntry, NoMemory>
    ensures { IfOk result (λ entry. entry ≡ told_entry router.0 (prefix, route.now)) }
{
    Ok(ToldEntry {
        router,
        prefix,
        route: route.copy()?,
    })
}

/// Adds what one other router told, in ascending order of prefix.
fn push_told_by(told: &mut Items<ToldEntry>, rib: &Rib, router: RouterId) -> Result<(), NoMemory>
    ensures { OnOk result (told.new ≡ told.old ++ map (told_entry router.0) (table.entries ((rib_of rib.now).tellings router.0))) }
{
    for prefix in rib.entry_prefixes(From::Router(router))?.iter() {
        if let Some(route) = rib.entry(From::Router(router), *prefix) {
            told.push(told_seen(router, *prefix, route)?)?;
        }
    }
    Ok(())
}

/// Returns what the other routers told, in ascending order of router and prefix.
fn told_of(alloc: Global, rib: &Rib, routers: usize) -> Result<Items<ToldEntry>, NoMemory>
    requires { routers ≤ 256 }
    ensures { IfOk result (λ told. told ≡ flat_map (λ q. map (told_entry q) (table.entries ((rib_of rib.now).tellings q))) (range_with_len 0 routers)) }
{
    let mut told = Items::new(alloc);
    for q in 0..routers {
        push_told_by(&mut told, rib, RouterId(q as u8))?;
    }
    Ok(told)
}

/// Returns the tables of a router. The laboratory must have at most 256 routers.
pub fn table_of(alloc: Global, rib: &Rib, routers: usize) -> Result<RouterTable, NoMemory>
    requires { routers ≤ 256 }
    ensures best { IfOk result (λ seen. seen.best ≡ map best_entry (table.entries rib.now.best)) }
    ensures heard { IfOk result
        (λ seen. seen.heard ≡ flat_map (λ q. map (told_entry q) (table.entries ((rib_of rib.now).tellings q))) (range_with_len 0 routers)) }
{
    Ok(RouterTable {
        best: best_of(alloc, rib)?,
        heard: told_of(alloc, rib, routers)?,
    })
}
