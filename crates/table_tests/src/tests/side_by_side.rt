use bgp_types::{Prefix, Table};
use prefix_table::SortedTable;
use prefix_trie::TrieTable;
use row_harness::Random;
use std::process::Abort;
use std::test::Fail;

/// How many commands the tables get.
const COMMANDS: u32 = 400;

/// The two tables, which get the same commands.
#[derive(Drop)]
struct Pair {
    plain: SortedTable<u32>,
    trie: TrieTable<u32>,
}

/// Returns a prefix, of one of four addresses with one bit turned, and of one of nine lengths: so that many of them are equal, cover one
/// another or diverge at some bit.
fn any_prefix(random: &mut Random) -> Option<Prefix> {
    let address = random.below(4) * 0x5555_5555 ^ 1 << random.below(32);
    Prefix::new(address, random.below(9) as u8 * 4)
}

fn set(rt: &impl Abort, pair: &mut Pair, at: Prefix, value: u32) -> Result<(), Fail> {
    let before = pair.plain.set(at, value)?;
    assert_eq!(rt; pair.trie.set(at, value)?, before);
    Ok(())
}

fn remove(rt: &impl Abort, pair: &mut Pair, at: Prefix) {
    assert_eq!(rt; pair.trie.remove(at), pair.plain.remove(at));
}

fn get(rt: &impl Abort, pair: &Pair, at: Prefix) {
    assert_eq!(rt; pair.trie.get(at).copied(), pair.plain.get(at).copied());
}

fn next_after(rt: &impl Abort, pair: &Pair, at: Prefix) {
    assert_eq!(rt;
        pair.trie.next_after(Some(at)),
        pair.plain.next_after(Some(at))
    );
}

/// Gives both tables one command, and checks that they answer it alike.
fn command(rt: &impl Abort, pair: &mut Pair, random: &mut Random) -> Result<(), Fail> {
    let at = any_prefix(random).ok_or("a length is at most 32")?;
    match random.below(8) {
        0..=3 => set(rt, pair, at, random.below(u32::MAX))?,
        4 | 5 => remove(rt, pair, at),
        6 => get(rt, pair, at),
        _ => next_after(rt, pair, at),
    }
    Ok(())
}

#[test]
fn both_tables_answer_alike(rt: HostRuntime) -> Result<(), Fail> {
    let mut random = Random::new(1);
    let mut pair = Pair {
        plain: SortedTable::new(rt.alloc()),
        trie: TrieTable::new(rt.alloc()),
    };
    for _ in 0..COMMANDS {
        command(&rt, &mut pair, &mut random)?;
        assert_eq!(rt; pair.trie.len(), pair.plain.len());
    }
    Ok(())
}
