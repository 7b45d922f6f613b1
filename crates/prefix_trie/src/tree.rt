//! A trie with its values, and the indices that are kept for later nodes.

ghost use Rattle.std.specs.Prelude.{◌≡◌, ◌+◌, ◌++◌, ◌≤◌, ◌/◌, ℕ, [], None, length, not, option_copied, IsOk, OnOk, OnErr};
ghost use Rattle.std.specs.FinMap as table;
ghost use Rattle.std.specs.FinMap.Entries.{where_key};
ghost use Rattle.std.specs.Fn.{FnOnceReturnsAtMut};
ghost use Rattle.std.specs.List.{Contains};
ghost use Rattle.std.specs.Ordering.{eq_by_cmp};
ghost use Rattle.bgp_types.specs.Prefixes.{IsPrefix};
ghost use Rattle.bgp_types.specs.Tables.{prefix_cmp};
ghost use Rattle.prefix_trie.specs.Arena.{indices_at, value_at, AreApart, HasNone, IsTrieAt};
ghost use Rattle.prefix_trie.specs.Adding.{IsSpot};
ghost use Rattle.prefix_trie.specs.Changes.{ChangeResult};
ghost use Rattle.prefix_trie.specs.Nodes.{PutResult};
ghost use Rattle.prefix_trie.specs.Trees.{entries, IsGrown, IsTrie};

use crate::node::{NOWHERE, Node, Spot, add_node, find, is_at, leaf, node_at, seek, trim};
use bgp_types::{NoMemory, Prefix};
use std::mem;

/// The nodes of a trie, the value of each at its index in another list, the index of the first node,
/// and the indices that no node uses. The nodes are apart from the values, so that a descent reads
/// little memory, however large the values are.
#[derive(Drop)]
pub struct Tree<V> {
    pub nodes: Vec<Node>,
    pub values: Vec<Option<V>>,
    pub free: Vec<u32>,
    pub root: u32,
}

/// Returns the value of a prefix.
pub fn get<V>(tree: &Tree<V>, prefix: Prefix) -> Option<&V>
    requires { IsTrie tree.now }
    ensures { option_copied result ≡ table.find prefix_cmp prefix (entries tree.now) }
{
    let index = find(&tree.nodes, tree.root, prefix)?;
    tree.values.get(index as usize)?.as_ref()
}

/// Changes the value of a prefix in place, and returns what the change returns. If the prefix has no
/// value, nothing changes and the result is `None`.
pub fn change<V, R, F: FnOnce(&mut V) -> R>(
    tree: &mut Tree<V>,
    prefix: Prefix,
    edit: F,
) -> Option<R>
    requires trie { IsTrie tree.old }
    requires callable { F.IsAlwaysCallable edit }
    ensures trie { IsTrie tree.new }
    ensures changed { ChangeResult (FnOnceReturnsAtMut F.FnOnce edit) prefix result (entries tree.old) (entries tree.new) }
    ensures free { tree.new.free ≡ tree.old.free }
{
    let index = find(&tree.nodes, tree.root, prefix)?;
    match &mut tree.values[index as usize] {
        Some(value) => Some(edit(value)),
        None => None,
    }
}

/// Sets the value of a prefix, and returns the value that it had. If memory runs out, the new value is
/// returned as the error and nothing changes.
pub fn put<V: Drop>(tree: &mut Tree<V>, prefix: Prefix, value: V) -> Result<Option<V>, V>
    requires trie { IsTrie tree.old }
    requires sound { IsPrefix prefix }
    ensures trie { IsTrie tree.new }
    ensures put { PutResult result prefix value (entries tree.old) (entries tree.new) (length tree.old.free.items) (length tree.new.free.items) }
{
    let spot = seek(&tree.nodes, tree.root, prefix);
    if is_at(&tree.nodes, spot.at, prefix) {
        return Ok(mem::replace(&mut tree.values[spot.at as usize], Some(value)));
    }
    put_new(tree, spot, prefix, value)
}

/// The same as `put`, for a prefix without a node.
fn put_new<V: Drop>(
    tree: &mut Tree<V>,
    spot: Spot,
    prefix: Prefix,
    value: V,
) -> Result<Option<V>, V>
    requires trie { IsTrie tree.old }
    requires sound { IsPrefix prefix }
    requires spot { IsSpot tree.old.nodes.items tree.old.root prefix spot.above spot.at }
    requires absent { HasNone tree.old.nodes.items tree.old.root prefix }
    ensures trie { IsTrie tree.new }
    ensures put { PutResult result prefix value (entries tree.old) (entries tree.new) (length tree.old.free.items) (length tree.new.free.items) }
{
    if reserve(tree, 1).is_err() {
        return Err(value);
    }
    put_free(tree, spot, prefix, value);
    Ok(None)
}

/// The same as `put`, for a prefix without a node where two indices are free.
fn put_free<V: Drop>(tree: &mut Tree<V>, spot: Spot, prefix: Prefix, value: V)
    requires trie { IsTrie tree.old }
    requires sound { IsPrefix prefix }
    requires spot { IsSpot tree.old.nodes.items tree.old.root prefix spot.above spot.at }
    requires absent { HasNone tree.old.nodes.items tree.old.root prefix }
    requires two { 2 ≤ length tree.old.free.items }
    ensures trie { IsTrie tree.new }
    ensures put { entries tree.new ≡ table.put prefix_cmp prefix value (entries tree.old) }
    ensures used { length tree.old.free.items ≤ length tree.new.free.items + 2 }
{
    let (Some(fresh), Some(spare)) = (tree.free.pop(), tree.free.pop()) else {
        unreachable!()
    };
    let added = add_node(&mut tree.nodes, fresh, spare, tree.root, prefix, spot);
    tree.values[fresh as usize] = Some(value);
    tree.root = added.root;
    if !added.forked {
        // The list has room for an index that was just taken from it.
        let _ = tree.free.push(spare);
    }
}

/// Removes a prefix, and returns its value.
pub fn take<V: Drop>(tree: &mut Tree<V>, prefix: Prefix) -> Option<V>
    requires trie { IsTrie tree.old }
    requires sound { IsPrefix prefix }
    ensures trie { IsTrie tree.new }
    ensures taken { result ≡ table.find prefix_cmp prefix (entries tree.old) }
    ensures entries { entries tree.new ≡ where_key prefix_cmp (λ other. not (eq_by_cmp prefix_cmp prefix other)) (entries tree.old) }
    ensures kept { length tree.old.free.items ≤ length tree.new.free.items }
{
    let spot = seek(&tree.nodes, tree.root, prefix);
    if !is_at(&tree.nodes, spot.at, prefix) {
        return None;
    }
    let value = tree.values[spot.at as usize].take();
    tree.root = trim(
        &mut tree.nodes,
        &tree.values,
        &mut tree.free,
        tree.root,
        prefix,
        spot,
    );
    value
}

/// Removes all prefixes, and keeps the indices of their nodes for reuse.
pub fn clear<V: Drop>(tree: &mut Tree<V>)
    requires { IsTrie tree.old }
    ensures trie { IsTrie tree.new }
    ensures none { entries tree.new ≡ [] }
    ensures kept { length tree.old.free.items ≤ length tree.new.free.items }
{
    empty(&tree.nodes, &mut tree.values, &mut tree.free, tree.root);
    tree.root = NOWHERE;
}

/// Removes the values in the subtree at an index, and keeps the indices of its nodes for reuse, as far as
/// the list of free indices has room.
fn empty<V: Drop>(nodes: &[Node], values: &mut [Option<V>], free: &mut Vec<u32>, index: u32)
    requires trie { IsTrieAt nodes.now index }
    requires apart { AreApart (indices_at nodes.now index ++ free.old.items) }
    requires bare { (q : ℕ) → Contains free.old.items q → value_at values.old q ≡ None }
    requires valued { length values.old ≡ length nodes.now }
    ensures apart { AreApart free.new.items }
    ensures among { (q : ℕ) → Contains free.new.items q → Contains (indices_at nodes.now index ++ free.old.items) q }
    ensures bare { (q : ℕ) → Contains free.new.items q → value_at values.new q ≡ None }
    ensures valued { length values.new ≡ length nodes.now }
    ensures kept { length free.old.items ≤ length free.new.items }
{
    let Some(node) = node_at(nodes, index) else {
        return;
    };
    values[index as usize] = None;
    let _ = free.push(index);
    empty(nodes, values, free, node.zero);
    empty(nodes, values, free, node.one);
}

/// The number of all prefixes: for each length from 0 to 32, one for each value of that many bits.
const ALL_PREFIXES: usize = (1 << 33) - 1;

/// Makes two free indices for each of `more` prefixes. If memory runs out, as many indices are free as
/// before. A number that is greater than that of all prefixes is refused at once.
pub fn reserve<V: Drop>(tree: &mut Tree<V>, more: usize) -> Result<(), NoMemory>
    requires { IsTrie tree.old }
    ensures trie { IsTrie tree.new }
    ensures grown { IsGrown tree.old tree.new }
    ensures ok { OnOk result (more ≤ length tree.new.free.items / 2) }
    ensures kept { OnOk result (length tree.old.free.items ≤ length tree.new.free.items) }
    ensures err { OnErr result (length tree.new.free.items ≡ length tree.old.free.items) }
    ensures spared { more ≤ length tree.old.free.items / 2 → IsOk result }
{
    let before = tree.free.len();
    if more <= before / 2 {
        return Ok(());
    }
    if more > ALL_PREFIXES {
        return Err(NoMemory);
    }
    let fresh = more * 2 - before;
    tree.nodes.reserve(fresh)?;
    tree.values.reserve(fresh)?;
    // There is room for all indices, so that none is lost when its node is removed.
    tree.free.reserve(tree.nodes.len().saturating_add(fresh))?;
    match fill(tree, more * 2) {
        Ok(()) => Ok(()),
        Err(none) => {
            tree.free.truncate(before);
            Err(none)
        }
    }
}

/// Makes free indices until there are `count`.
fn fill<V: Drop>(tree: &mut Tree<V>, count: usize) -> Result<(), NoMemory>
    requires { IsTrie tree.old }
    ensures trie { IsTrie tree.new }
    ensures grown { IsGrown tree.old tree.new }
    ensures ok { OnOk result (count ≤ length tree.new.free.items) }
    ensures more { length tree.old.free.items ≤ length tree.new.free.items }
{
    while tree.free.len() < count {
        add_index(tree)?;
    }
    Ok(())
}

/// Makes one free index. If memory runs out, the same indices are free as before.
fn add_index<V: Drop>(tree: &mut Tree<V>) -> Result<(), NoMemory>
    requires { IsTrie tree.old }
    ensures trie { IsTrie tree.new }
    ensures grown { IsGrown tree.old tree.new }
    ensures ok { OnOk result (length tree.new.free.items ≡ length tree.old.free.items + 1) }
    ensures err { OnErr result (tree.new.free.items ≡ tree.old.free.items) }
{
    let index = tree.nodes.len();
    if index >= NOWHERE as usize {
        return Err(NoMemory);
    }
    let Some(prefix) = Prefix::new(0, 0) else {
        unreachable!()
    };
    tree.nodes.reserve(1)?;
    tree.values.reserve(1)?;
    tree.free.push(index as u32)?;
    if tree.nodes.push(leaf(prefix)).is_err() || tree.values.push(None).is_err() {
        unreachable!();
    }
    Ok(())
}
