use bgp_types::{Prefix, SpareTable, Table};
use prefix_trie::TrieTable;
use std::alloc::Global;
use std::process::Abort;
use std::test::Fail;

const EVERYWHERE: (u32, u8) = (0, 0);

const TEN: (u32, u8) = (0x0A00_0000, 8);

const LOW_HALF: (u32, u8) = (0x0A00_0000, 9);

const HIGH_HALF: (u32, u8) = (0x0A80_0000, 9);

const INNER: (u32, u8) = (0x0A40_0000, 10);

fn prefix(at: (u32, u8)) -> Result<Prefix, Fail> {
    Ok(Prefix::new(at.0, at.1).ok_or("the length is at most 32")?)
}

/// Returns a table with these prefixes, each of which has its length as its value.
fn table_of(alloc: Global, prefixes: &[(u32, u8)]) -> Result<TrieTable<u8>, Fail> {
    let mut table = TrieTable::new(alloc);
    for at in prefixes {
        table.set(prefix(*at)?, at.1)?;
    }
    Ok(table)
}

#[test]
fn each_call(rt: HostRuntime) -> Result<(), Fail> {
    let ten = prefix(TEN)?;
    let mut table = TrieTable::new(rt.alloc());
    assert_eq!(rt; table.set(ten, 1)?, None);
    assert_eq!(rt; table.set(ten, 2)?, Some(1));
    assert_eq!(rt; table.get(ten).copied(), Some(2));
    assert_eq!(rt; table.get(prefix(LOW_HALF)?).copied(), None);
    assert_eq!(rt; table.len(), 1);
    assert_eq!(rt; table.next_after(None), Some(ten));
    assert_eq!(rt; table.next_after(Some(ten)), None);
    assert_eq!(rt; table.remove(ten), Some(2));
    assert_eq!(rt; table.remove(ten), None);
    assert_eq!(rt; table.len(), 0);
    Ok(())
}

/// Checks that each host has this longest prefix.
fn match_hosts(rt: &impl Abort, table: &TrieTable<u8>, cases: &[(u32, Option<Prefix>)]) {
    for case in cases {
        assert_eq!(rt; table.longest_match(case.0), case.1, "host {}", case.0);
    }
}

#[test]
fn the_longest_prefix_matches(rt: HostRuntime) -> Result<(), Fail> {
    let mut table = table_of(rt.alloc(), &[EVERYWHERE, TEN, INNER])?;
    let (everywhere, ten, inner) = (prefix(EVERYWHERE)?, prefix(TEN)?, prefix(INNER)?);
    match_hosts(
        &rt,
        &table,
        &[
            (0x0A41_0001, Some(inner)),
            (0x0A01_0001, Some(ten)),
            (0x0900_0001, Some(everywhere)),
        ],
    );
    assert_eq!(rt; table.remove(everywhere), Some(0));
    match_hosts(
        &rt,
        &table,
        &[(0x0A41_0001, Some(inner)), (0x0900_0001, None)],
    );
    Ok(())
}

/// A host's own prefix matches it alone. Two diverging prefixes have a node for the bits that they share, which is no
/// match.
#[test]
fn what_has_no_value_matches_nothing(rt: HostRuntime) -> Result<(), Fail> {
    let table = table_of(
        rt.alloc(),
        &[LOW_HALF, (0x0AC0_0001, 32), (0x0AC0_0003, 32)],
    )?;
    match_hosts(
        &rt,
        &table,
        &[
            (0x0A7F_FFFF, Some(prefix(LOW_HALF)?)),
            (0x0A80_0000, None),
            (0x0AC0_0001, Some(prefix((0x0AC0_0001, 32))?)),
            (0x0AC0_0002, None),
            (0x0AC0_0003, Some(prefix((0x0AC0_0003, 32))?)),
        ],
    );
    Ok(())
}

/// Checks that a walk from the least prefix passes these prefixes, and no others.
fn walk(rt: &impl Abort, table: &TrieTable<u8>, prefixes: &[(u32, u8)]) -> Result<(), Fail> {
    let mut last = None;
    for at in prefixes {
        let next = prefix(*at)?;
        assert_eq!(rt; table.next_after(last), Some(next), "after {last:?}");
        last = Some(next);
    }
    assert_eq!(rt; table.next_after(last), None, "after {last:?}");
    Ok(())
}

#[test]
fn a_walk_meets_the_shorter_first(rt: HostRuntime) -> Result<(), Fail> {
    let last = (0xFFFF_FFFF, 32);
    let table = table_of(
        rt.alloc(),
        &[
            INNER,
            last,
            HIGH_HALF,
            EVERYWHERE,
            LOW_HALF,
            (0x0A00_0000, 32),
            TEN,
        ],
    )?;
    walk(
        &rt,
        &table,
        &[
            EVERYWHERE,
            TEN,
            LOW_HALF,
            (0x0A00_0000, 32),
            INNER,
            HIGH_HALF,
            last,
        ],
    )?;
    // from an absent prefix
    assert_eq!(rt;
        table.next_after(Some(prefix((0x0A00_0000, 7))?)),
        Some(prefix(TEN)?)
    );
    assert_eq!(rt;
        table.next_after(Some(prefix((0x0A00_0000, 10))?)),
        Some(prefix((0x0A00_0000, 32))?)
    );
    assert_eq!(rt;
        table.next_after(Some(prefix((0x0A80_0000, 10))?)),
        Some(prefix(last)?)
    );
    Ok(())
}

/// The two halves and their common node take three nodes of the four that were reserved. When one half is removed, its
/// branch is joined with the other, and two nodes are free.
#[test]
fn a_removal_joins_branches(rt: HostRuntime) -> Result<(), Fail> {
    let mut table: TrieTable<u8> = TrieTable::new(rt.alloc());
    table.reserve(2)?;
    for at in &[LOW_HALF, HIGH_HALF, INNER] {
        table.set(prefix(*at)?, at.1)?;
    }
    assert_eq!(rt; table.spare(), 0);
    assert_eq!(rt; table.remove(prefix(TEN)?), None);
    assert_eq!(rt; table.remove(prefix(HIGH_HALF)?), Some(9));
    assert_eq!(rt; table.spare(), 1);
    walk(&rt, &table, &[LOW_HALF, INNER])?;
    // a node with a branch stays above it while it has a value
    assert_eq!(rt; table.remove(prefix(LOW_HALF)?), Some(9));
    walk(&rt, &table, &[INNER])?;
    assert_eq!(rt; table.remove(prefix(INNER)?), Some(10));
    walk(&rt, &table, &[])?;
    assert!(rt; table.spare() == 2 && table.len() == 0);
    Ok(())
}

#[test]
fn memory_that_was_taken_ahead_is_used(rt: HostRuntime) -> Result<(), Fail> {
    let mut table = table_of(rt.alloc(), &[LOW_HALF])?;
    table.reserve(2)?;
    assert_eq!(rt; table.spare(), 2);
    // more nodes than there are prefixes
    assert!(rt; table.reserve(1 << 33).is_err());
    assert_eq!(rt; table.set_reserved(prefix(LOW_HALF)?, 1), Some(9));
    assert_eq!(rt; table.spare(), 2);
    assert_eq!(rt; table.set_reserved(prefix(HIGH_HALF)?, 2), None);
    assert_eq!(rt; table.spare(), 1);
    assert_eq!(rt; table.set_reserved(prefix(INNER)?, 3), None);
    walk(&rt, &table, &[LOW_HALF, INNER, HIGH_HALF])?;
    assert_eq!(rt; table.get(prefix(LOW_HALF)?).copied(), Some(1));
    Ok(())
}
