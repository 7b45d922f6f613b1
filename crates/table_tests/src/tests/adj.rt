use adj_rib::AdjRib;
use bgp_types::{AsPath, Attrs, Origin, Prefix, PrefixList, RawAttrs, Update};
use std::alloc::Global;
use std::process::Abort;
use std::test::Fail;

const EVERYWHERE: (u32, u8) = (0, 0);

const TEN: (u32, u8) = (0x0A00_0000, 8);

const LOW_HALF: (u32, u8) = (0x0A00_0000, 9);

const HIGH_HALF: (u32, u8) = (0x0A80_0000, 9);

fn prefix(at: (u32, u8)) -> Result<Prefix, Fail> {
    Ok(Prefix::new(at.0, at.1).ok_or("the length is at most 32")?)
}

fn list(alloc: Global, prefixes: &[(u32, u8)]) -> Result<PrefixList, Fail> {
    let mut list = PrefixList::new(alloc);
    for at in prefixes {
        list.push(prefix(*at)?)?;
    }
    Ok(list)
}

fn attrs(alloc: Global, next_hop: u32) -> Attrs {
    Attrs {
        origin: Origin::Igp,
        path: AsPath::new(alloc),
        next_hop,
        med: None,
        atomic: false,
        aggregator: None,
        unknown: RawAttrs::new(alloc),
    }
}

/// What an UPDATE withdraws, and what it announces with a next hop.
type Told<'a> = (&'a [(u32, u8)], u32, &'a [(u32, u8)]);

/// Applies an UPDATE, and checks that exactly these prefixes have changed.
fn take(
    rt: &impl Abort,
    alloc: Global,
    rib: &mut AdjRib,
    told: Told,
    changed: &[(u32, u8)],
) -> Result<(), Fail> {
    let update = Update {
        withdrawn: list(alloc, told.0)?,
        attrs: Some(attrs(alloc, told.1)),
        nlri: list(alloc, told.2)?,
    };
    let prefixes = rib.apply(&update)?;
    assert_eq!(rt; prefixes.as_slice(), list(alloc, changed)?.as_slice());
    Ok(())
}

/// Returns the next hop of a prefix, if it has a route.
fn next_hop(rib: &AdjRib, at: (u32, u8)) -> Result<Option<u32>, Fail> {
    Ok(rib.get(prefix(at)?).map(|attrs| attrs.next_hop))
}

/// Withdrawals come before announcements.
#[test]
fn one_update_withdraws_and_announces(rt: HostRuntime) -> Result<(), Fail> {
    let mut rib = AdjRib::new(rt.alloc());
    take(
        &rt,
        rt.alloc(),
        &mut rib,
        (&[], 1, &[TEN, LOW_HALF]),
        &[TEN, LOW_HALF],
    )?;
    take(
        &rt,
        rt.alloc(),
        &mut rib,
        (&[TEN, LOW_HALF], 2, &[HIGH_HALF, LOW_HALF]),
        &[TEN, LOW_HALF, HIGH_HALF],
    )?;
    assert_eq!(rt; next_hop(&rib, TEN)?, None);
    assert_eq!(rt; next_hop(&rib, LOW_HALF)?, Some(2));
    assert_eq!(rt; next_hop(&rib, HIGH_HALF)?, Some(2));
    assert_eq!(rt; rib.len(), 2);
    Ok(())
}

/// What doesn't change isn't listed: a route that is announced again, also after its own withdrawal, and the withdrawal
/// of an absent route.
#[test]
fn what_stays_is_not_listed(rt: HostRuntime) -> Result<(), Fail> {
    let mut rib = AdjRib::new(rt.alloc());
    take(&rt, rt.alloc(), &mut rib, (&[TEN], 1, &[]), &[])?;
    take(&rt, rt.alloc(), &mut rib, (&[], 1, &[TEN]), &[TEN])?;
    take(&rt, rt.alloc(), &mut rib, (&[], 1, &[TEN]), &[])?;
    take(&rt, rt.alloc(), &mut rib, (&[TEN], 1, &[TEN]), &[])?;
    take(&rt, rt.alloc(), &mut rib, (&[TEN], 2, &[TEN]), &[TEN])?;
    Ok(())
}

#[test]
fn nested_prefixes_rise(rt: HostRuntime) -> Result<(), Fail> {
    let mut rib = AdjRib::new(rt.alloc());
    take(
        &rt,
        rt.alloc(),
        &mut rib,
        (&[], 1, &[HIGH_HALF, LOW_HALF, EVERYWHERE, TEN]),
        &[EVERYWHERE, TEN, LOW_HALF, HIGH_HALF],
    )?;
    assert_eq!(rt; rib.next_after(None), Some(prefix(EVERYWHERE)?));
    assert_eq!(rt; rib.next_after(Some(prefix(TEN)?)), Some(prefix(LOW_HALF)?));
    assert_eq!(rt; rib.next_after(Some(prefix(HIGH_HALF)?)), None);
    Ok(())
}

#[test]
fn clear_takes_all(rt: HostRuntime) -> Result<(), Fail> {
    let mut rib = AdjRib::new(rt.alloc());
    take(
        &rt,
        rt.alloc(),
        &mut rib,
        (&[], 1, &[TEN, HIGH_HALF]),
        &[TEN, HIGH_HALF],
    )?;
    assert_eq!(rt; rib.len(), 2);
    rib.clear();
    assert_eq!(rt; rib.len(), 0);
    assert_eq!(rt; rib.next_after(None), None);
    take(&rt, rt.alloc(), &mut rib, (&[TEN], 1, &[TEN]), &[TEN])?;
    Ok(())
}
