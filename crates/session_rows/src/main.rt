//! Sessions worked out by hand. Each row says what is done with a session.
#![tactic(auto)]

mod calls;
mod exchange;
mod link;
mod side;
mod texts;
mod update;

use crate::exchange::exchanges;
use crate::side::Side;
use anyhow::{Context, Result};
use row_harness::{Table, answer_rows, word};
use std::alloc::Global;

/// The session that began last.
#[derive(Drop)]
struct Current {
    side: Option<Side>,
}

impl Current {
    /// Makes a session the current one, and returns how it looks.
    fn begin(&mut self, alloc: Global, side: Side) -> Result<String> {
        let looks = side.looks(alloc)?;
        self.side = Some(side);
        Ok(looks)
    }
}

impl Table for Current {
    fn answer(&mut self, alloc: Global, words: &[&str]) -> Result<String> {
        match word(words, 0) {
            "exchange" => exchanges(alloc, words),
            "begin" => self.begin(alloc, Side::begin(alloc, words)?),
            "move" => {
                let side = self.side.take().context("a session")?;
                self.begin(alloc, side.moved())
            }
            _ => {
                let side = self.side.as_mut().context("a session")?;
                side.act(alloc, words)
            }
        }
    }
}

fn main(rt: HostRuntime) -> Result<()> {
    answer_rows(&rt, &mut Current { side: None })
}
