use bgp_types::{AsPath, Attrs, From, NoMemory, Origin, Prefix, RawAttrs, Route, SharedAttrs};
use loc_rib::LocRib;
use route_policy::Best;
use std::alloc::Global;
use std::test::Fail;

fn prefix(address: u32, len: u8) -> Result<Prefix, Fail> {
    Ok(Prefix::new(address, len).ok_or("the length is at most 32")?)
}

/// Returns a route of the router's own, with this preference.
fn best(alloc: Global, pref: u32) -> Result<Best, NoMemory> {
    Ok(Best {
        from: From::Own,
        route: Route {
            attrs: SharedAttrs::new(Attrs {
                origin: Origin::Igp,
                path: AsPath::new(alloc),
                next_hop: 0,
                med: None,
                atomic: false,
                aggregator: None,
                unknown: RawAttrs::new(alloc),
            })?,
            pref,
        },
    })
}

/// Checks what `set` returns, one call after another.
#[test]
fn a_best_route_changes(rt: HostRuntime) -> Result<(), Fail> {
    let ten = prefix(0x0A00_0000, 8)?;
    let mut rib = LocRib::new(rt.alloc());
    for (pref, changed) in [
        (None, false),
        (Some(100u32), true),
        (Some(100), false),
        (Some(101), true),
        (None, true),
        (None, false),
    ] {
        let next = match pref {
            Some(pref) => Some(best(rt.alloc(), pref)?),
            None => None,
        };
        assert_eq!(rt; rib.set(ten, next)?, changed, "{pref:?}");
        assert_eq!(rt; rib.get(ten).map(|best| best.route.pref), pref);
        assert_eq!(rt; rib.next_after(None), pref.map(|_| ten));
    }
    Ok(())
}

/// Dirty prefixes are settled in ascending order, each once.
#[test]
fn dirty_prefixes(rt: HostRuntime) -> Result<(), Fail> {
    let (low, high) = (prefix(0x0A00_0000, 8)?, prefix(0x0A00_0000, 9)?);
    let mut rib = LocRib::new(rt.alloc());
    for dirty in [high, low, high] {
        rib.mark(dirty)?;
    }
    for dirty in [low, high] {
        assert_eq!(rt; rib.next_dirty(), Some(dirty));
        assert!(rt; rib.set(dirty, Some(best(rt.alloc(), 100)?))?);
        rib.settle(dirty);
    }
    assert_eq!(rt; rib.next_dirty(), None);
    assert_eq!(rt; rib.next_after(Some(low)), Some(high));
    assert_eq!(rt; rib.next_after(Some(high)), None);
    Ok(())
}
