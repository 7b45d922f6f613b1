//! The ranks by which a router decides between routes (RFC 4271, sections 9.1.2 and 9.1.2.2).

ghost use Rattle.std.specs.Prelude.{◌≡◌, true, false};
ghost use Rattle.bgp_types.specs.Spelling.{origin_number as origin_number_lem};
ghost use Rattle.route_policy.specs.Candidates.{own_rank as own_rank_lem, rank_of};

use bgp_types::{Attrs, Origin, Rank, Route, neighbour, path_len};

/// The preference of a route if no policy sets one.
pub const PREFERENCE: u32 = 100;

/// Returns the number of an ORIGIN. The lowest is the best.
fn origin_number(origin: Origin) -> u8
    ensures { result ≡ origin_number_lem origin }
{
    match origin {
        Origin::Igp => 0,
        Origin::Egp => 1,
        Origin::Incomplete => 2,
    }
}

/// Returns the rank of a network of the router's own: preference 100, an empty path and ORIGIN IGP.
pub fn own_rank(home_as: u32) -> Rank
    ensures { result ≡ own_rank_lem home_as }
{
    Rank {
        own: true,
        pref: PREFERENCE,
        path_len: 0,
        origin: 0,
        neighbour: home_as,
        med: 0,
        external: false,
        cost: 0,
        identifier: 0,
        address: 0,
    }
}

/// Returns the rank of a route from a session, as its import policy left it. `identifier` is the BGP
/// Identifier in the remote's OPEN, and `address` the remote's address. An absent MED counts as 0.
pub fn session_rank(home_as: u32, identifier: u32, address: u32, route: &Route) -> Rank
    ensures { result ≡ rank_of home_as true 0 identifier address route.now }
{
    Rank {
        external: true,
        ..told_rank(home_as, 0, identifier, address, route)
    }
}

/// Returns the rank of a route that another home router told. `cost` is the interior cost to that
/// router, and `identifier` its BGP Identifier, which also counts as its address. An absent MED counts
/// as 0.
pub fn router_rank(home_as: u32, cost: u32, identifier: u32, route: &Route) -> Rank
    ensures { result ≡ rank_of home_as false cost identifier identifier route.now }
{
    told_rank(home_as, cost, identifier, identifier, route)
}

/// Returns the rank of a route that was told inside the home network.
fn told_rank(home_as: u32, cost: u32, identifier: u32, address: u32, route: &Route) -> Rank
    ensures { result ≡ rank_of home_as false cost identifier address route.now }
{
    let attrs: &Attrs = &route.attrs;
    Rank {
        own: false,
        pref: route.pref,
        path_len: path_len(&attrs.path),
        origin: origin_number(attrs.origin),
        neighbour: neighbour(&attrs.path, home_as),
        med: attrs.med.unwrap_or(0),
        external: false,
        cost,
        identifier,
        address,
    }
}
