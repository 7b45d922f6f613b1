//! The job `import`.

ghost use Rattle.lab_import.specs.Captures.{fault_line as fault_line_lem};
ghost use Rattle.lab_words.specs.declared.job.Job.TheVariants.{Import};
ghost use Rattle.lab_top.specs.Cases.{outside, DidOr, WritesOr};

use crate::finish::{BAD_INPUT, DONE, Finish, READ_FAILED, end_with, without_run};
use graft_edge::{NoMemory, ReadStop, Sink, Source, read_all};
use lab_import::{CaptureFault, MOST_CAPTURE, Unimported, fault_line, import_capture};
use std::alloc::Global;

/// Writes the line for a fault of a capture.
fn end_refused<K: Sink>(
    alloc: Global,
    sink: &mut K,
    fault: CaptureFault,
) -> Result<Finish, NoMemory>
    ensures { WritesOr (fault_line_lem fault) 2 (K.faults sink.old) (K.faults sink.new) (K.written sink.old) (K.written sink.new) result }
{
    let line = fault_line(alloc, fault)?;
    Ok(end_with(sink, &line, BAD_INPUT, None))
}

/// Reads a capture from the source, and writes the laboratory of its sessions.
pub(crate) fn import_job<S: Source, K: Sink>(
    alloc: Global,
    source: &mut S,
    sink: &mut K,
    home: Option<u32>,
) -> Result<Finish, NoMemory>
    ensures { DidOr (Import home) (outside (S.left source.old) (S.faults source.old) (K.written sink.old) (K.faults sink.old))
        (outside (S.left source.new) (S.faults source.new) (K.written sink.new) (K.faults sink.new)) result }
{
    let file = match read_all(alloc, source, MOST_CAPTURE) {
        Ok(file) => file,
        Err(ReadStop::TooLong) => {
            return end_refused(alloc, sink, CaptureFault::Form(MOST_CAPTURE));
        }
        Err(ReadStop::Failed) => return Ok(without_run(READ_FAILED)),
        Err(ReadStop::NoMemory) => return Err(NoMemory),
    };
    match import_capture(alloc, home, file) {
        Ok(text) => Ok(end_with(sink, &text, DONE, None)),
        Err(Unimported::Fault(fault)) => end_refused(alloc, sink, fault),
        Err(Unimported::NoMemory) => Err(NoMemory),
    }
}
