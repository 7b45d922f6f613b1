//! An answer in words.

ghost use Rattle.std.specs.Prelude.{◌≡◌, IfOk};
ghost use Rattle.run_auditor.specs.declared.audit.Audit.TheVariants as audits;
ghost use Rattle.lab_audit.specs.Told.{answer_text as answer_text_lem, end_text as end_text_lem, reason_text as reason_text_lem};

use graft_edge::{Items, NoMemory, Octets};
use run_auditor::{Audit, Why};
use std::alloc::Global;

/// Returns the word for whether anything is left to do at the end of a run.
fn end_text(quiet: bool) -> &'static str
    ensures { result.now ≡ end_text_lem quiet }
{
    if quiet { "quiet" } else { "running" }
}

/// Returns the word for what is at fault with an entry.
fn reason_text(why: Why) -> &'static str
    ensures { result.now ≡ reason_text_lem why }
{
    match why {
        Why::Order => "order",
        Why::Kind => "kind",
        Why::Condition => "condition",
        Why::Clock => "clock",
    }
}

/// Returns the line of the answer that a run has the journal.
fn yes_text(alloc: Global, events: u64, quiet: bool) -> Result<Octets, NoMemory>
    ensures { IfOk result (λ text. text ≡ answer_text_lem (audits.Yes events quiet)) }
{
    let end = end_text(quiet);
    let text = format!(in alloc; "audit yes events {events} {end}\n")?;
    Ok(Items::from_vec(text.into_bytes()))
}

/// Returns the line of the answer that no run has it.
fn no_text(alloc: Global, event: u64, why: Why) -> Result<Octets, NoMemory>
    ensures { IfOk result (λ text. text ≡ answer_text_lem (audits.No event why)) }
{
    let reason = reason_text(why);
    let text = format!(in alloc; "audit no event {event} reason {reason}\n")?;
    Ok(Items::from_vec(text.into_bytes()))
}

/// Returns the line of an answer.
pub(crate) fn answer_text(alloc: Global, answer: Audit) -> Result<Octets, NoMemory>
    ensures { IfOk result (λ text. text ≡ answer_text_lem answer) }
{
    match answer {
        Audit::Yes { events, quiet } => yes_text(alloc, events, quiet),
        Audit::No { event, why } => no_text(alloc, event, why),
    }
}
