//! The routes of a router: rows that are worked out by hand, and generated commands compared with a plain list of
//! entries. After the report on the rows it prints after how many of the generated commands the best routes aren't those
//! of the plain list.
#![tactic(auto)]

mod generated;
mod plain;
mod plans;
mod routes;
mod tables;
mod texts;
mod words;

use crate::generated::commands_that_differ;
use crate::tables::RouterTables;
use anyhow::Result;
use row_harness::answer_rows;

fn main(rt: HostRuntime) -> Result<()> {
    let mut tables = RouterTables::new(rt.alloc())?;
    answer_rows(&rt, &mut tables)?;
    let differ = commands_that_differ(rt.alloc())?;
    println!(rt;
        "3000 commands from 8 sources, {differ} with another best route than that of a plain list"
    )?;
    Ok(())
}
