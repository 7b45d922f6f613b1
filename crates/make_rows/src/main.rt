//! Seeds, and the length and the SHA-256 of the laboratory that each one makes. The text is proved to be that of its
//! definition; these digests are of a text that was made independently.
#![tactic(auto)]

use anyhow::{Result, bail};
use lab_make::make_lab;
use row_harness::{Table, answer_rows, number};
use sha2::{Digest, Sha256};
use std::alloc::Global;

/// The laboratories of the rows' seeds.
#[derive(Drop)]
struct Seeds;

impl Table for Seeds {
    fn answer(&mut self, alloc: Global, words: &[&str]) -> Result<String> {
        let seed = number(words, 1)?;
        if seed == 0 || seed >= 10_000 {
            bail!("a seed from 1 to 9999");
        }
        let lab = make_lab(alloc, seed)?;
        let digest = hex::encode(alloc, Sha256::digest(lab.as_slice()))?;
        Ok(format!(in alloc; "{} bytes, {digest}", lab.len())?)
    }
}

fn main(rt: HostRuntime) -> Result<()> {
    answer_rows(&rt, &mut Seeds)
}
