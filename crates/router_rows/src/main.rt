//! Turns of routers, worked out by hand.
#![tactic(auto)]

mod bench;
mod laboratory;
mod sessions;
mod stations;
mod texts;
mod words;

use crate::bench::Bench;
use anyhow::Result;
use row_harness::answer_rows;

fn main(rt: HostRuntime) -> Result<()> {
    let mut bench = Bench::begin(rt.alloc())?;
    answer_rows(&rt, &mut bench)
}
