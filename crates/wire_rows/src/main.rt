//! Frames and what a session answers to them, worked out by hand.
#![tactic(auto)]

mod answer;
mod row;

use crate::answer::answer_to;
use crate::row::row_of;
use anyhow::Result;
use row_harness::{Table, answer_rows};
use std::alloc::Global;

/// The frames of the rows.
#[derive(Drop)]
struct Frames;

impl Table for Frames {
    /// Returns the first answer that the row doesn't expect, or nothing.
    fn answer(&mut self, alloc: Global, words: &[&str]) -> Result<String> {
        let row = row_of(alloc, words)?;
        for width in row.widths {
            let expected = row.expected(*width);
            let answer = answer_to(alloc, row.octets.as_slice(), &expected)?;
            if !row.takes(answer.as_str()) {
                return Ok(answer);
            }
        }
        Ok(String::new(alloc))
    }
}

fn main(rt: HostRuntime) -> Result<()> {
    answer_rows(&rt, &mut Frames)
}
