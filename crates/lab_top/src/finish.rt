//! How a command ends.

ghost use Rattle.std.specs.Prelude.{◌≡◌, ◌≤◌, None};
ghost use Rattle.lab_top.specs.Ends.{WritesText};

use graft_edge::{Octets, Sink, write_all};
use lab_report::Lab;

/// The statuses of the program, but for the one of a test that failed, which is 9 (`test_status` of `expect_view`).
pub const DONE: u8 = 0;

pub const USAGE: u8 = 1;

pub const BAD_INPUT: u8 = 2;

pub const UNSETTLED: u8 = 3;

pub const READ_FAILED: u8 = 4;

pub const WRITE_FAILED: u8 = 5;

pub const NO_MEMORY: u8 = 6;

pub const LIMIT: u8 = 7;

pub const DENIED: u8 = 8;

/// How a command ends: its status, and the run where there was one.
#[derive(Debug, Drop)]
pub struct Finish {
    pub status: u8,
    pub lab: Option<Lab>,
}

/// Why the source gives no input.
#[derive(Debug, Drop)]
pub(crate) enum InputStop {
    /// It has other bytes, and this is what is said of them.
    Bad(Octets),
    Failed,
    NoMemory,
}

/// Ends with a status, without a run.
pub(crate) fn without_run(status: u8) -> Finish
    ensures { result ≡ record { status = status; lab = None } }
{
    Finish { status, lab: None }
}

/// Writes a text and ends with a status, or with that of a write that failed.
pub(crate) fn end_with<K: Sink>(sink: &mut K, text: &[u8], status: u8, lab: Option<Lab>) -> Finish
    ensures steady { K.faults sink.old ≤ K.faults sink.new }
    ensures writes { WritesText text.now status (K.faults sink.old) (K.faults sink.new) (K.written sink.old) (K.written sink.new) result.status }
    ensures lab { result.lab ≡ lab }
{
    match write_all(sink, text) {
        Ok(()) => Finish { status, lab },
        Err(_) => Finish {
            status: WRITE_FAILED,
            lab,
        },
    }
}
