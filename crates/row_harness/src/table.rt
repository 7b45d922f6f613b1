//! Tables of rows.

ghost use Rattle.std.specs.Prelude.{◌≡◌, IfOk, length};
ghost use Rattle.row_harness.specs.Rows.{rows_of};

use crate::report::Report;
use crate::rows::{row_of, rows_in};
use crate::words::words_of;
use anyhow::{Context, Result};
use std::alloc::Global;
use std::io;

/// What the calls of a table do.
pub trait Table {
    /// Returns the answer to the call of these words.
    fn answer(&mut self, alloc: Global, words: &[&str]) -> Result<String>;
}

/// Answers the rows of a text.
pub fn report_of<T: Table>(alloc: Global, table: &mut T, text: &str) -> Result<Report>
    ensures { IfOk result (λ report. report.rows ≡ length (rows_of text.now)) }
{
    let mut report = Report::new(alloc);
    for line in &rows_in(alloc, text)? {
        let row = row_of(line);
        let words = words_of(alloc, row.call)?;
        let given = table.answer(alloc, words.as_slice()).context(line)?;
        report.note(line, row.expected, given.as_str())?;
    }
    Ok(report)
}

/// Reads rows from standard input, and prints each row whose answer isn't the expected one, and then how many rows
/// there are.
pub fn answer_rows<T: Table>(rt: &HostRuntime, table: &mut T) -> Result<()> {
    let text = io::read_to_string(rt.alloc(), rt.reader())?;
    let report = report_of(rt.alloc(), table, text.as_str())?;
    println!(rt; "{report}")?;
    Ok(())
}
