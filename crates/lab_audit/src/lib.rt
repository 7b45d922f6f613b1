//! What an audit says of a text: whether it is the journal of a run, or why it is no journal.
#![tactic(auto)]

mod audited;
mod refused;
mod words;

pub use audited::{AuditEnd, Told, audit_text};
pub use refused::{MOST_TEXT, long_text, refusal};
