//! The table of prefixes that the program uses: a trie over the bits of addresses.
#![tactic(auto)]

mod node;
mod tree;
mod trie;

pub use trie::TrieTable;
