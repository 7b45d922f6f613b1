//! The report of a table.

ghost use Rattle.std.specs.Prelude.{◌≡◌, ◌≢◌, ◌+◌, ◌<◌, ◌≤◌, ◌++◌, ◌^◌, OnOk, codes, string_bytes};

use std::alloc::{AllocError, Global};
use std::fmt;

/// How many rows were answered, how many of them otherwise than expected, and these rows with their answers.
#[derive(Debug, Drop)]
pub struct Report {
    rows: u64,
    otherwise: u64,
    lines: String,
}

impl Report {
    /// Returns the report on no rows.
    pub fn new(alloc: Global) -> Report
        ensures none { result.rows ≡ 0 }
        ensures otherwise { result.otherwise ≡ 0 }
    {
        Report {
            rows: 0,
            otherwise: 0,
            lines: String::new(alloc),
        }
    }

    /// Notes the answer that was given to a row.
    pub fn note(&mut self, row: &str, expected: &str, given: &str) -> Result<(), AllocError>
        requires few { self.old.rows + 1 < 2 ^ 64 }
        requires part { self.old.otherwise ≤ self.old.rows }
        ensures rows { OnOk result (self.new.rows ≡ self.old.rows + 1) }
        ensures part { OnOk result (self.new.otherwise ≤ self.new.rows) }
        ensures expected { OnOk result (given.now ≡ expected.now → self.new.otherwise ≡ self.old.otherwise) }
        ensures otherwise { OnOk result (given.now ≢ expected.now → self.new.otherwise ≡ self.old.otherwise + 1) }
        ensures shown { OnOk result (given.now ≢ expected.now
            → string_bytes self.new.lines ≡ string_bytes self.old.lines ++ row.now ++ codes " - answered " ++ given.now ++ codes "\n") }
    {
        self.rows += 1;
        if given != expected {
            self.otherwise += 1;
            self.lines.push_str(row)?;
            self.lines.push_str(" - answered ")?;
            self.lines.push_str(given)?;
            self.lines.push_str("\n")?;
        }
        Ok(())
    }
}

impl fmt::Display for Report {
    fn fmt<W: fmt::Write>(&self, f: &mut fmt::Formatter<W>) -> fmt::Result {
        let Report {
            rows,
            otherwise,
            lines,
        } = self;
        write!(f, "{lines}{rows} rows, {otherwise} answered otherwise")
    }
}
