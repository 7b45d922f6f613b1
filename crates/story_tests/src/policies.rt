//! Rules of policies, ASes prepended to paths, and ranks of routes, worked out by hand.

use bgp_types::{
    AsPath, Attrs, From, Items, NoMemory, Origin, PathPart, Prefix, Rank, RawAttrs, Route,
    RouterId, SharedAttrs, TryCopy,
};
use route_policy::{Best, Policy, PrefixRange, Rule, own_rank, prepend, router_rank, session_rank};
use std::alloc::Global;
use std::test::Fail;

const ANY: Rule = Rule {
    within: None,
    has_as: None,
    origin: None,
    deny: false,
    pref: None,
    med: None,
    prepend: 0,
};

/// Returns a route with ORIGIN EGP and MED 7, over 65001 and 65002.
fn route(alloc: Global) -> Result<Route, NoMemory> {
    let mut path: AsPath = Items::new(alloc);
    path.push(PathPart::Sequence(Items::from_slice(alloc, &[65001, 65002])?))?;
    let unknown: RawAttrs = Items::new(alloc);
    Ok(Route {
        attrs: SharedAttrs::new(Attrs {
            origin: Origin::Egp,
            path,
            next_hop: 0xC000_0201,
            med: Some(7),
            atomic: false,
            aggregator: None,
            unknown,
        })?,
        pref: 100,
    })
}

fn policy(alloc: Global, rules: &[Rule]) -> Result<Policy, NoMemory> {
    Ok(Policy::new(Items::from_slice(alloc, rules)?))
}

/// Returns the rule for the prefixes of 10.0.0.0/8 of these lengths.
fn range(ge: u8, le: u8) -> Rule {
    Rule {
        within: Prefix::new(0x0A00_0000, 8).map(|prefix| PrefixRange { prefix, ge, le }),
        ..ANY
    }
}

/// Returns the index of the rule that matches the prefix of this address and length.
fn index_of(
    alloc: Global,
    rules: &[Rule],
    address: u32,
    len: u8,
) -> Result<Option<usize>, NoMemory> {
    let Some(prefix) = Prefix::new(address, len) else {
        return Ok(None);
    };
    Ok(
        policy(alloc, rules)?
            .copy()?
            .matching(prefix, &route(alloc)?),
    )
}

/// Returns what the rules make of the route to 10.64.0.0/10.
fn applied(alloc: Global, rules: &[Rule]) -> Result<Option<Route>, NoMemory> {
    let Some(prefix) = Prefix::new(0x0A40_0000, 10) else {
        return Ok(None);
    };
    policy(alloc, rules)?.apply(prefix, route(alloc)?, 65001)
}

#[test]
fn the_first_rule_whose_parts_all_match(rt: HostRuntime) -> Result<(), Fail> {
    let mine = Rule {
        has_as: Some(65002),
        origin: Some(Origin::Egp),
        ..ANY
    };
    let rules = [
        Rule {
            has_as: Some(65009),
            ..ANY
        },
        Rule {
            origin: Some(Origin::Igp),
            ..mine
        },
        range(11, 24),
        range(10, 10),
        mine,
        ANY,
    ];
    for (len, wanted) in [(10, 3), (11, 2), (24, 2), (25, 4), (32, 4)] {
        let found = index_of(rt.alloc(), &rules, 0x0A40_0000, len)?;
        assert_eq!(rt; found, Some(wanted), "length {len}");
    }
    assert_eq!(rt;
        index_of(rt.alloc(), &[range(8, 32)], 0x0B00_0000, 12)?,
        None
    );
    Ok(())
}

#[test]
fn a_rule_that_matches_sets_what_it_has(rt: HostRuntime) -> Result<(), Fail> {
    let raises = Rule {
        pref: Some(200),
        med: Some(0),
        prepend: 2,
        ..ANY
    };
    let denies = Rule { deny: true, ..ANY };
    let changed = applied(rt.alloc(), &[range(11, 11), raises, denies])?.ok_or("denied")?;
    assert_eq!(rt; (changed.pref, changed.attrs.med), (200, Some(0)));
    assert_eq!(rt; changed.attrs.next_hop, 0xC000_0201);
    assert_eq!(rt; bgp_types::path_len(&changed.attrs.path), 4);
    let denied = applied(rt.alloc(), &[denies, raises])?;
    assert_eq!(rt; denied.is_none(), true);
    let kept = applied(rt.alloc(), &[range(11, 11)])?.ok_or("denied")?;
    assert_eq!(rt; (kept.pref, kept.attrs.med), (100, Some(7)));
    Ok(())
}

fn ases(alloc: Global, count: u32) -> Result<Items<u32>, NoMemory> {
    let mut ases = Items::new(alloc);
    for n in 0..count {
        ases.push(n)?;
    }
    Ok(ases)
}

#[test]
fn an_as_goes_into_a_leading_sequence_with_room(rt: HostRuntime) -> Result<(), Fail> {
    let alloc = rt.alloc();
    // the number of leading ASes, and whether they are a sequence; then, after prepending, how many lead, and the
    // number of parts
    let rows = [
        (1, true, 2, 1),
        (254, true, 255, 1),
        (255, true, 1, 2),
        (1, false, 1, 2),
    ];
    for (count, in_order, leading, parts) in rows {
        let mut path = Items::new(alloc);
        let list = ases(alloc, count)?;
        if in_order {
            path.push(PathPart::Sequence(list))?;
        } else {
            path.push(PathPart::Set(list))?;
        }
        let longer = prepend(path, 65000)?;
        assert_eq!(rt; longer.len(), parts, "{count}");
        assert_eq!(rt; bgp_types::neighbour(&longer, 1), 65000, "{count}");
        match longer.as_slice() {
            [PathPart::Sequence(first), ..] => {
                assert_eq!(rt; first.len(), leading, "{count}");
            }
            _ => return Err("no sequence leads")?,
        }
    }
    Ok(())
}

/// The rank of the route with ORIGIN EGP (1) and MED 7 over two ASes, of which 65001 leads.
const RANK: Rank = Rank {
    own: false,
    pref: 100,
    path_len: 2,
    origin: 1,
    neighbour: 65001,
    med: 7,
    external: true,
    cost: 0,
    identifier: 9,
    address: 8,
};

#[test]
fn a_route_has_the_rank_of_where_it_comes_from(rt: HostRuntime) -> Result<(), Fail> {
    let best = Best {
        from: From::Router(RouterId(1)),
        route: route(rt.alloc())?,
    };
    assert!(rt; best.copy()? == best);
    assert_eq!(rt; session_rank(65000, 9, 8, &best.route), RANK);
    let told = Rank {
        external: false,
        cost: 4,
        address: 9,
        ..RANK
    };
    assert_eq!(rt; router_rank(65000, 4, 9, &best.route), told);
    let own = own_rank(65000);
    assert_eq!(rt; (own.own, own.pref, own.neighbour), (true, 100, 65000));
    Ok(())
}
