//! The rows of a text.

ghost use Rattle.std.specs.Prelude.{◌≡◌, ◌↔◌, IfOk, IsTrue, map};
ghost use Rattle.row_harness.specs.Rows.{is_row_text, rows_of};

use std::alloc::{AllocError, Global};

/// Returns whether a line is a row: it isn't empty, and doesn't begin with `#`.
fn is_row(line: &str) -> bool
    ensures { result ≡ is_row_text line.now }
{
    !line.is_empty() && !line.starts_with('#')
}

/// Returns the rows of a text.
pub fn rows_in(alloc: Global, text: &str) -> Result<Vec<&str>, AllocError>
    ensures { IfOk result (λ rows. map (λ row. row.now) rows.items ≡ rows_of text.now) }
{
    text.lines().filter(|line| is_row(line)).collect(alloc)
}

/// A call, and the answer that is expected of it.
#[derive(Clone, Copy, Debug)]
pub struct Row<'a> {
    pub call: &'a str,
    pub expected: &'a str,
}

/// Splits a row. One without an arrow expects an empty answer.
pub fn row_of(line: &str) -> Row<'_> {
    let (said, _shows) = line.split_once(" ; ").unwrap_or((line, ""));
    let (call, expected) = said.split_once(" => ").unwrap_or((said, ""));
    Row { call, expected }
}
