//! The job `audit`.

ghost use Rattle.std.specs.Prelude.{◌≡◌, IfOk};
ghost use Rattle.lab_audit.specs.Told.{long_text as long_text_lem};
ghost use Rattle.lab_audit.specs.declared.audited.AuditEnd.TheVariants as audit_ends;
ghost use Rattle.lab_words.specs.declared.job.Job.TheVariants.{Audit};
ghost use Rattle.lab_top.specs.Ends.{audit_status as audit_status_lem};
ghost use Rattle.lab_top.specs.Cases.{outside, DidOr, EndsAudit};

use crate::finish::{BAD_INPUT, DENIED, DONE, Finish, READ_FAILED, end_with, without_run};
use graft_edge::{NoMemory, ReadStop, Sink, Source, read_all};
use lab_audit::{AuditEnd, MOST_TEXT, Told, audit_text, long_text};
use std::alloc::Global;

/// The status of an audit that ended so.
fn audit_status(end: AuditEnd) -> u8
    ensures { result ≡ audit_status_lem end }
{
    match end {
        AuditEnd::NoJournal => BAD_INPUT,
        AuditEnd::Yes => DONE,
        AuditEnd::No => DENIED,
    }
}

/// What is said of a text that is longer than a journal's.
fn long_told(alloc: Global) -> Result<Told, NoMemory>
    ensures { IfOk result (λ told. (told.text ≡ long_text_lem) × (told.end ≡ audit_ends.NoJournal)) }
{
    let text = long_text(alloc)?;
    Ok(Told {
        text,
        end: AuditEnd::NoJournal,
    })
}

/// Writes what an audit says.
fn end_audit<K: Sink>(sink: &mut K, told: &Told) -> Finish
    ensures { EndsAudit told.now (K.faults sink.old) (K.faults sink.new) (K.written sink.old) (K.written sink.new) result }
{
    end_with(sink, &told.text, audit_status(told.end), None)
}

/// Reads the text of a journal from the source, and writes whether a run has it.
pub(crate) fn audit_job<S: Source, K: Sink>(
    alloc: Global,
    source: &mut S,
    sink: &mut K,
) -> Result<Finish, NoMemory>
    ensures { DidOr Audit (outside (S.left source.old) (S.faults source.old) (K.written sink.old) (K.faults sink.old))
        (outside (S.left source.new) (S.faults source.new) (K.written sink.new) (K.faults sink.new)) result }
{
    match read_all(alloc, source, MOST_TEXT) {
        Ok(text) => {
            let told = audit_text(alloc, &text)?;
            Ok(end_audit(sink, &told))
        }
        Err(ReadStop::TooLong) => {
            let told = long_told(alloc)?;
            Ok(end_audit(sink, &told))
        }
        Err(ReadStop::Failed) => Ok(without_run(READ_FAILED)),
        Err(ReadStop::NoMemory) => Err(NoMemory),
    }
}
