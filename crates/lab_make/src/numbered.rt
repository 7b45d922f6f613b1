//! Numbers within a text.

ghost use Rattle.std.specs.Prelude.{◌≡◌, ◌++◌, OnOk, string_bytes};
ghost use Rattle.lab_make.specs.Made.{number_between};

use graft_edge::NoMemory;
use std::fmt::Write;

/// Appends a number between two texts.
#[tactic(auto, unfolding(crate::specs::Made::number_between))]
pub(crate) fn push_numbered(
    text: &mut String,
    before: &str,
    n: u32,
    after: &str,
) -> Result<(), NoMemory>
    ensures { OnOk result (string_bytes text.new ≡ string_bytes text.old ++ number_between before.now n after.now) }
{
    write!(text, "{before}{n}{after}")?;
    Ok(())
}
