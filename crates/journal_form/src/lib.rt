//! The journal of a run as a text: how it is written behind the input that was run, and how it is read.
#![tactic(auto)]

mod laws;
mod number;
mod reading;
mod writing;

pub use laws::{a_text_is_read_in_one_way, journals_read_back};
pub use reading::{JournalStop, divide, read_entries};
pub use writing::journal_text;
