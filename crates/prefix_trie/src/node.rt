//! The nodes of a trie, which stand in one list. A node has a prefix, and names the indices of its two
//! branches. The value of a node stands at the same index of another list.

ghost use Rattle.std.specs.Prelude.{◌↔◌, ◌⊎◌, ◌≢◌, ℕ, ◌≤◌, ◌/◌, ◌^◌, IsTrue, ◌≡◌, ◌++◌, if◌then◌else◌, ◌<◌, length, nat_lt, map, is_some};
ghost use Rattle.std.specs.Prelude.{option_copied, option_map, slice_get, Some, None, IfNone, IfSome, IsSome, OnOk, OnSome};
ghost use Rattle.std.specs.FinMap as table;
ghost use Rattle.std.specs.List.{Contains};
ghost use Rattle.bgp_types.specs.Tables.{prefix_cmp, first_above};
ghost use Rattle.prefix_trie.specs.Halves.{middle as middle_of, IsFork};
ghost use Rattle.prefix_trie.specs.Longest.{LongestOf};
ghost use Rattle.prefix_trie.specs.Arena.{entries_at, indices_at, value_at, HasNone, IsTrieAt, IsNodeSet, IsUnder};
ghost use Rattle.prefix_trie.specs.Adding.{leaf as leaf_of, CanAdd, IsAdded, IsForkOf, IsLinked, IsOver, IsSpot, IsUpper, IsWay};
ghost use Rattle.prefix_trie.specs.Trimming.{CanTrim, IsTrimmed};
ghost use Rattle.bgp_types.specs.Prefixes.{Covers};

use bgp_types::{NoMemory, Prefix, PrefixList};

/// A prefix, and the indices of its branches. An index without a node is that of an empty branch.
#[derive(Clone, Copy)]
pub struct Node {
    pub prefix: Prefix,
    pub zero: u32,
    pub one: u32,
}

/// Returns the address where the second half of a prefix begins.
fn middle(prefix: Prefix) -> u64
    ensures { result ≡ middle_of prefix }
{
    u64::from(prefix.address()) + (1 << 31 >> prefix.len())
}

/// Whether an address is before the second half of a prefix.
fn is_early(address: u32, prefix: Prefix) -> bool
    ensures { result ≡ nat_lt address (middle_of prefix) }
{
    u64::from(address) < middle(prefix)
}

/// Returns the number of addresses in a half of a prefix of this length.
fn half(len: u8) -> u32
    requires { len < 32 }
    ensures { result ≡ 2 ^ 31 / 2 ^ len }
{
    1 << 31 >> len
}

/// Whether a prefix is longer than another that covers it.
fn is_below(prefix: Prefix, at: Prefix) -> bool
    ensures { IsTrue result ↔ IsUnder at prefix }
{
    at.len() < prefix.len()
        && at.address() <= prefix.address()
        && (prefix.address() - at.address()) / 2 < half(at.len())
}

/// The same as `is_early`, for an address that isn't before the prefix.
fn is_first_half(address: u32, prefix: Prefix) -> bool
    requires from { prefix.address ≤ address }
    requires short { prefix.len < 32 }
    ensures { result ≡ nat_lt address (middle_of prefix) }
{
    address - prefix.address() < half(prefix.len())
}

/// Returns the node at an index.
pub fn node_at(nodes: &[Node], index: u32) -> Option<&Node>
    ensures { option_copied result ≡ slice_get nodes.now index }
{
    nodes.get(index as usize)
}

/// Returns the index of the node of a prefix, if there is one.
pub fn find(nodes: &[Node], root: u32, prefix: Prefix) -> Option<u32>
    requires { IsTrieAt nodes.now root }
    ensures index { IfSome result (λ index. Contains (indices_at nodes.now root) index) }
    ensures node { IfSome result (λ index. option_map (λ n. n.prefix) (slice_get nodes.now index) ≡ Some prefix) }
    ensures none { IfNone result (HasNone nodes.now root prefix) }
{
    let mut at = root;
    while let Some(node) = node_at(nodes, at) {
        if node.prefix.len() >= prefix.len() {
            return if node.prefix == prefix {
                Some(at)
            } else {
                None
            };
        }
        at = if is_early(prefix.address(), node.prefix) {
            node.zero
        } else {
            node.one
        };
    }
    None
}

/// Whether there is a value at an index.
fn has_value<V>(values: &[Option<V>], index: u32) -> bool
    ensures { result ≡ is_some (value_at values.now index) }
{
    match values.get(index as usize) {
        Some(value) => value.is_some(),
        None => false,
    }
}

/// Returns the least prefix in the subtree at an index.
pub fn first<V>(nodes: &[Node], values: &[Option<V>], index: u32) -> Option<Prefix>
    requires { IsTrieAt nodes.now index }
    ensures { result ≡ first_above None (map (λ e. e.0) (entries_at nodes.now values.now index)) }
{
    match node_at(nodes, index) {
        None => None,
        Some(node) => {
            if has_value(values, index) {
                return Some(node.prefix);
            }
            match first(nodes, values, node.zero) {
                Some(prefix) => Some(prefix),
                None => first(nodes, values, node.one),
            }
        }
    }
}

/// Adds the prefixes in the subtree at an index to a list, in ascending order.
pub fn list<V>(
    nodes: &[Node],
    values: &[Option<V>],
    index: u32,
    prefixes: &mut PrefixList,
) -> Result<(), NoMemory>
    requires { IsTrieAt nodes.now index }
    ensures { OnOk result (prefixes.new ≡ prefixes.old ++ map (λ e. e.0) (entries_at nodes.now values.now index)) }
{
    if let Some(node) = node_at(nodes, index) {
        if has_value(values, index) {
            prefixes.push(node.prefix)?;
        }
        list(nodes, values, node.zero, prefixes)?;
        list(nodes, values, node.one, prefixes)?;
    }
    Ok(())
}

/// Returns the least prefix above another, in the subtree at an index.
pub fn next<V>(nodes: &[Node], values: &[Option<V>], index: u32, prefix: Prefix) -> Option<Prefix>
    requires { IsTrieAt nodes.now index }
    ensures { result ≡ first_above (Some prefix) (map (λ e. e.0) (entries_at nodes.now values.now index)) }
{
    match node_at(nodes, index) {
        None => None,
        Some(node) => {
            if prefix < node.prefix {
                return first(nodes, values, index);
            }
            if is_early(prefix.address(), node.prefix) {
                if let Some(after) = next(nodes, values, node.zero, prefix) {
                    return Some(after);
                }
                return first(nodes, values, node.one);
            }
            next(nodes, values, node.one, prefix)
        }
    }
}

/// Returns a prefix if it has a value, or else the other.
fn chosen(has: bool, prefix: Prefix, other: Option<Prefix>) -> Option<Prefix>
    ensures { result ≡ (if has then Some prefix else other) }
{
    if has { Some(prefix) } else { other }
}

/// Returns the longest prefix that covers another.
pub fn longest<V>(nodes: &[Node], values: &[Option<V>], root: u32, host: Prefix) -> Option<Prefix>
    requires { IsTrieAt nodes.now root }
    ensures { LongestOf (λ p. IsSome (table.find prefix_cmp p (entries_at nodes.now values.now root))) host result }
{
    let mut longest = None;
    let mut at = root;
    while let Some(node) = node_at(nodes, at) {
        if !node.prefix.covers(&host) {
            return longest;
        }
        longest = chosen(has_value(values, at), node.prefix, longest);
        at = if is_early(host.address(), node.prefix) {
            node.zero
        } else {
            node.one
        };
    }
    longest
}

/// Puts a node at an index.
fn set_node(nodes: &mut [Node], index: u32, node: Node)
    requires { index < length nodes.old }
    ensures { IsNodeSet nodes.old nodes.new index node }
{
    nodes[index as usize] = node;
}

/// The index of a trie's first node after a prefix got a node, and whether a fork was added above that
/// node.
#[derive(Clone, Copy)]
pub struct Rooted {
    pub root: u32,
    pub forked: bool,
}

/// The index that means no node.
pub const NOWHERE: u32 = u32::MAX;

/// Returns a node of a prefix without branches.
pub fn leaf(prefix: Prefix) -> Node
    ensures { result ≡ leaf_of prefix }
{
    Node {
        prefix,
        zero: NOWHERE,
        one: NOWHERE,
    }
}

/// Returns a node of a prefix whose only branch is at an index, where the node has a prefix that it
/// covers.
fn over(prefix: Prefix, at: Prefix, index: u32) -> Node
    ensures { IsOver prefix at index result }
{
    if is_early(at.address(), prefix) {
        return Node {
            zero: index,
            ..leaf(prefix)
        };
    }
    Node {
        one: index,
        ..leaf(prefix)
    }
}

/// Returns the shortest prefix of which one address is in the first half and the other in the second.
fn fork_of(low: u32, high: u32) -> Prefix
    requires { low < high }
    ensures { IsFork low high result }
{
    match Prefix::new(low, (low ^ high).leading_zeros() as u8) {
        Some(prefix) => prefix,
        None => unreachable!(),
    }
}

/// Returns a fork of two prefixes, neither of which covers the other: of one, whose node gets the index
/// `fresh`, and of another, whose node is at an index.
fn fork(prefix: Prefix, fresh: u32, at: Prefix, index: u32) -> Node
    requires above { Covers at prefix → ⊥ }
    requires below { Covers prefix at → ⊥ }
    ensures { IsForkOf prefix fresh at index result }
{
    if prefix.address() < at.address() {
        return Node {
            prefix: fork_of(prefix.address(), at.address()),
            zero: fresh,
            one: index,
        };
    }
    Node {
        prefix: fork_of(at.address(), prefix.address()),
        zero: index,
        one: fresh,
    }
}

/// Returns a copy of the node at an index.
fn copy_at(nodes: &[Node], index: u32) -> Option<Node>
    ensures { result ≡ slice_get nodes.now index }
{
    nodes.get(index as usize).copied()
}

/// Adds a node of a prefix at the index where it belongs: the index is vacant, or its node's prefix
/// isn't a shorter one that covers it.
fn add_at(nodes: &mut [Node], fresh: u32, spare: u32, index: u32, prefix: Prefix) -> Rooted
    requires can { CanAdd nodes.old prefix fresh spare index }
    requires stop { IfSome (slice_get nodes.old index) (λ n. IsUnder n.prefix prefix → ⊥) }
    ensures { IsAdded nodes.old nodes.new prefix fresh spare index result.root result.forked }
{
    let Some(node) = copy_at(nodes, index) else {
        set_node(nodes, fresh, leaf(prefix));
        return Rooted {
            root: fresh,
            forked: false,
        };
    };
    let at = node.prefix;
    if prefix.covers(&at) {
        set_node(nodes, fresh, over(prefix, at, index));
        return Rooted {
            root: fresh,
            forked: false,
        };
    }
    set_node(nodes, fresh, leaf(prefix));
    set_node(nodes, spare, fork(prefix, fresh, at, index));
    Rooted {
        root: spare,
        forked: true,
    }
}

/// Where the node of a prefix belongs: at index `at`, below the node at `above`, which is below the one
/// at `grand`.
#[derive(Clone, Copy)]
pub struct Spot {
    pub grand: u32,
    pub above: u32,
    pub at: u32,
}

/// Finds where the node of a prefix belongs.
pub fn seek(nodes: &[Node], root: u32, prefix: Prefix) -> Spot
    requires { IsTrieAt nodes.now root }
    ensures spot { IsSpot nodes.now root prefix result.above result.at }
    ensures upper { IsUpper nodes.now root prefix result.grand result.above }
{
    let mut grand = NOWHERE;
    let mut above = NOWHERE;
    let mut at = root;
    while let Some(node) = node_at(nodes, at) {
        if !is_below(prefix, node.prefix) {
            return Spot { grand, above, at };
        }
        grand = above;
        above = at;
        at = if is_first_half(prefix.address(), node.prefix) {
            node.zero
        } else {
            node.one
        };
    }
    Spot { grand, above, at }
}

/// Whether the node at an index is that of a prefix.
pub fn is_at(nodes: &[Node], index: u32, prefix: Prefix) -> bool
    ensures { IsTrue result ↔ (option_map (λ n. n.prefix) (slice_get nodes.now index) ≡ Some prefix) }
{
    match node_at(nodes, index) {
        Some(node) => node.prefix == prefix,
        None => false,
    }
}

/// Returns a node that names another index for the half in which a prefix lies.
fn linked(node: Node, prefix: Prefix, to: u32) -> Node
    ensures { IsLinked node prefix to result }
{
    if is_early(prefix.address(), node.prefix) {
        return Node { zero: to, ..node };
    }
    Node { one: to, ..node }
}

/// Adds a node without a value for a prefix that has none, at the fresh index. If it needs a fork above
/// it, the fork gets the spare index.
pub fn add_node(
    nodes: &mut [Node],
    fresh: u32,
    spare: u32,
    root: u32,
    prefix: Prefix,
    spot: Spot,
) -> Rooted
    requires can { CanAdd nodes.old prefix fresh spare root }
    requires spot { IsSpot nodes.old root prefix spot.above spot.at }
    ensures { IsAdded nodes.old nodes.new prefix fresh spare root result.root result.forked }
{
    let added = add_at(nodes, fresh, spare, spot.at, prefix);
    let Some(node) = copy_at(nodes, spot.above) else {
        return added;
    };
    set_node(nodes, spot.above, linked(node, prefix, added.root));
    Rooted {
        root,
        forked: added.forked,
    }
}

/// Returns the index that replaces that of a node: if the node has neither a value nor two branches,
/// that of its only branch, else its own. In the first case its own index is kept for reuse, if the
/// list of free indices has room.
fn tidy<V>(nodes: &[Node], values: &[Option<V>], free: &mut Vec<u32>, index: u32) -> u32
    requires { CanTrim nodes.now free.old.items index }
    ensures { IsTrimmed nodes.now nodes.now values.now free.old.items free.new.items index result }
{
    let Some(node) = copy_at(nodes, index) else {
        return index;
    };
    if has_value(values, index) {
        return index;
    }
    let branch = if node.zero == NOWHERE {
        node.one
    } else if node.one == NOWHERE {
        node.zero
    } else {
        return index;
    };
    let _ = free.push(index);
    branch
}

/// Removes the node at `at`, on the way to where a prefix belongs, if it has neither a value nor two
/// branches. Returns the index of the trie's first node.
fn trim_at<V>(
    nodes: &mut [Node],
    values: &[Option<V>],
    free: &mut Vec<u32>,
    root: u32,
    prefix: Prefix,
    above: u32,
    at: u32,
) -> u32
    requires can { CanTrim nodes.old free.old.items root }
    requires way { IsWay nodes.old root prefix above at }
    ensures trimmed { IsTrimmed nodes.old nodes.new values.now free.old.items free.new.items root result }
    ensures others { (r : ℕ) → r ≢ above → slice_get nodes.new r ≡ slice_get nodes.old r }
    ensures root { slice_get nodes.new above ≡ None ⊎ result ≡ root }
{
    let to = tidy(nodes, values, free, at);
    let Some(node) = copy_at(nodes, above) else {
        return to;
    };
    set_node(nodes, above, linked(node, prefix, to));
    root
}

/// Does the same as `trim_at` for the node where a prefix belongs, and for the one above it, which may
/// have lost a branch.
pub fn trim<V>(
    nodes: &mut [Node],
    values: &[Option<V>],
    free: &mut Vec<u32>,
    root: u32,
    prefix: Prefix,
    spot: Spot,
) -> u32
    requires can { CanTrim nodes.old free.old.items root }
    requires spot { IsSpot nodes.old root prefix spot.above spot.at }
    requires upper { IsUpper nodes.old root prefix spot.grand spot.above }
    ensures { IsTrimmed nodes.old nodes.new values.now free.old.items free.new.items root result }
{
    let begin = trim_at(nodes, values, free, root, prefix, spot.above, spot.at);
    let Some(node) = node_at(nodes, spot.above) else {
        return begin;
    };
    if node.zero != NOWHERE && node.one != NOWHERE {
        return root;
    }
    trim_at(nodes, values, free, root, prefix, spot.grand, spot.above)
}
