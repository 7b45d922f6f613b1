//! The words of a row.

use anyhow::{Context, Result, bail};
use bgp_types::{From, PeeringId, Prefix, RouterId, read_address, read_prefix};
use row_harness::{small, value, word};

/// Returns the number after a key, if the row has the key.
pub fn number_after(words: &[&str], key: &str) -> Result<Option<u32>> {
    match value(words, key) {
        Some(word) => Ok(Some(word.parse::<u32>()?)),
        None => Ok(None),
    }
}

/// Returns the address after a key.
pub fn address(words: &[&str], key: &str) -> Result<u32> {
    let word = value(words, key).context("an address")?;
    read_address(word).context("an address")
}

/// Returns the prefix at an index.
pub fn prefix(words: &[&str], index: usize) -> Result<Prefix> {
    read_prefix(word(words, index)).context("a prefix")
}

/// Returns the source of a route: `peering N` or `router N` from the second word on.
pub fn source(words: &[&str]) -> Result<From> {
    let number = small(words, 2)?;
    match word(words, 1) {
        "peering" => Ok(From::Peering(PeeringId(number))),
        "router" => Ok(From::Router(RouterId(number))),
        _ => bail!("a peering or a router"),
    }
}
