//! The audit of a text.

ghost use Rattle.std.specs.Prelude.{◌≡◌, IfOk};
ghost use Rattle.lab_audit.specs.Told.{TellsOf, end_of as end_of_lem};

use crate::refused::{line_text, refusal, undivided_text};
use crate::words::answer_text;
use graft_edge::{NoMemory, Octets};
use journal_form::{JournalStop, divide, read_entries};
use lab_input::{LabStop, read_lab};
use run_auditor::{Audit, audit_journal};
use std::alloc::Global;

/// How the audit of a text ended.
#[derive(Clone, Copy, Debug, PartialEq, Eq)]
pub enum AuditEnd {
    /// The text is no journal of a laboratory.
    NoJournal,
    /// Some run of the laboratory has this journal.
    Yes,
    /// No run has it.
    No,
}

/// What is said of a text.
#[derive(Debug, Drop)]
pub struct Told {
    pub text: Octets,
    pub end: AuditEnd,
}

/// Returns how an audit with this answer ends.
fn end_of(answer: Audit) -> AuditEnd
    ensures { result ≡ end_of_lem answer }
{
    match answer {
        Audit::Yes { .. } => AuditEnd::Yes,
        Audit::No { .. } => AuditEnd::No,
    }
}

/// Returns what is said of a text that is no journal.
fn refused(text: Octets) -> Told
    ensures { result ≡ record { text = text; end = AuditEnd.NoJournal } }
{
    Told {
        text,
        end: AuditEnd::NoJournal,
    }
}

/// Audits a text as `graftlab journal` writes it: an input, the line `%% journal 1`, a line for each entry, and the
/// line `%% end`. The answer is that some run of the laboratory has this journal, or the first entry that no run has
/// and why. Of a text of another form the first fault is told: it has no such line; or what stands before the last one
/// is no input; or the first line behind that one which isn't as in a journal.
pub fn audit_text(alloc: Global, text: &[u8]) -> Result<Told, NoMemory>
    ensures { IfOk result (λ told. TellsOf text.now told.text told.end) }
{
    let Some((input, rest)) = divide(text) else {
        return Ok(refused(undivided_text(alloc)?));
    };
    let lab = match read_lab(alloc, input) {
        Ok(lab) => lab,
        Err(LabStop::Bad(bad)) => return Ok(refused(refusal(alloc, input, &bad)?)),
        Err(LabStop::NoMemory) => return Err(NoMemory),
    };
    let journal = match read_entries(alloc, rest) {
        Ok(journal) => journal,
        Err(JournalStop::Line(line)) => return Ok(refused(line_text(alloc, line)?)),
        Err(JournalStop::NoMemory) => return Err(NoMemory),
    };
    let answer = audit_journal(alloc, &lab, &journal)?;
    let text = answer_text(alloc, answer)?;
    Ok(Told {
        text,
        end: end_of(answer),
    })
}
