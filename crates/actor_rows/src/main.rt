//! Turns of the far side and of the operator, worked out by hand.
#![tactic(auto)]

mod bench;
mod laboratory;
mod plans;
mod words;

use crate::bench::Bench;
use anyhow::Result;
use row_harness::answer_rows;

fn main(rt: HostRuntime) -> Result<()> {
    let mut bench = Bench::of_operator(rt.alloc())?;
    answer_rows(&rt, &mut bench)
}
