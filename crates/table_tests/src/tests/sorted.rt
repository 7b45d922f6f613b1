use super::walk::longest;
use bgp_types::{Prefix, Table};
use prefix_table::SortedTable;
use std::alloc::Global;
use std::test::Fail;

/// The default route, two prefixes that begin at one address, and one at a higher address.
const RISING: [(u32, u8); 4] = [
    (0, 0),
    (0x0A00_0000, 8),
    (0x0A00_0000, 16),
    (0x0A40_0000, 10),
];

fn prefix(address: u32, len: u8) -> Result<Prefix, Fail> {
    Ok(Prefix::new(address, len).ok_or("the length is at most 32")?)
}

/// Returns a table with the prefixes of `RISING`, each with its length as value. The greatest is set first.
fn filled(alloc: Global) -> Result<SortedTable<u32>, Fail> {
    let mut table = SortedTable::new(alloc);
    for (address, len) in RISING.iter().rev() {
        table.set(prefix(*address, *len)?, u32::from(*len))?;
    }
    Ok(table)
}

#[test]
fn a_value_is_set_replaced_and_removed(rt: HostRuntime) -> Result<(), Fail> {
    let mut table = SortedTable::new(rt.alloc());
    let (low, high) = (prefix(0x0A00_0000, 8)?, prefix(0x0A00_0000, 9)?);
    assert_eq!(rt; table.set(high, 9u32), Ok(None));
    assert_eq!(rt; table.set(low, 8), Ok(None));
    assert_eq!(rt; table.set(low, 80), Ok(Some(8)));
    assert_eq!(rt; table.len(), 2);
    assert_eq!(rt; table.get(low).copied(), Some(80));
    assert_eq!(rt; table.remove(low), Some(80));
    assert_eq!(rt; table.remove(low), None);
    assert_eq!(rt; table.get(low).copied(), None);
    assert_eq!(rt; table.get(high).copied(), Some(9));
    Ok(())
}

#[test]
fn a_walk_passes_all_prefixes_by_address_and_then_by_length(rt: HostRuntime) -> Result<(), Fail> {
    let table = filled(rt.alloc())?;
    let mut at = None;
    for (address, len) in RISING {
        at = table.next_after(at);
        assert_eq!(rt; at.map(|p| (p.address(), p.len())), Some((address, len)));
    }
    assert_eq!(rt; table.next_after(at), None);
    // a walk goes on from an absent prefix
    let absent = prefix(0x0A00_0000, 12)?;
    assert_eq!(rt;
        table.next_after(Some(absent)),
        Some(prefix(0x0A00_0000, 16)?)
    );
    Ok(())
}

#[test]
fn the_longest_prefix_that_covers_an_address(rt: HostRuntime) -> Result<(), Fail> {
    let mut table = filled(rt.alloc())?;
    assert_eq!(rt; table.remove(prefix(0x0A00_0000, 16)?), Some(16));
    for (address, want, len) in [
        (0x0A41_0001u32, 0x0A40_0000, 10),
        (0x0A01_0001, 0x0A00_0000, 8),
        (0x0900_0001, 0, 0),
    ] {
        assert_eq!(rt; longest(&table, address), Some(prefix(want, len)?));
    }
    assert_eq!(rt; table.remove(prefix(0, 0)?), Some(0));
    assert_eq!(rt; longest(&table, 0x0900_0001), None);
    Ok(())
}

#[test]
fn values_move_in_and_out(rt: HostRuntime) -> Result<(), Fail> {
    let mut table = SortedTable::new(rt.alloc());
    let at = prefix(0xC000_0200, 24)?;
    assert_eq!(rt; table.set(at, Box::new(rt.alloc(), 1u32)?)?, None);
    let before = table.set(at, Box::new(rt.alloc(), 2)?)?;
    assert_eq!(rt; before.map(|value| *value), Some(1));
    assert_eq!(rt; table.get(at).map(|value| **value), Some(2));
    assert_eq!(rt; table.remove(at).map(|value| *value), Some(2));
    assert_eq!(rt; table.len(), 0);
    Ok(())
}
