//! A journal that is written as a text.

ghost use Rattle.std.specs.Prelude.{◌≡◌, ◌++◌, IfOk, OnOk, string_bytes, decimal};
ghost use Rattle.std.specs.List.{flat_map};
ghost use Rattle.journal_form.specs.Journals.{entry_line, journal_text};

use graft_edge::{NoMemory, Octets};
use ring_net::JournalEntry;
use std::alloc::Global;
use std::fmt::Write;

/// The line in front of the entries.
pub(crate) const DIVIDING_LINE: &str = "%% journal 1\n";

/// The newline behind the input, and that line.
pub(crate) const DIVIDER: &str = "\n%% journal 1\n";

/// The line behind the entries.
pub(crate) const END_LINE: &str = "%% end\n";

/// A number and what stands behind it.
fn push_number(text: &mut String, number: u64, behind: &str) -> Result<(), NoMemory>
    ensures { OnOk result (string_bytes text.new ≡ string_bytes text.old ++ (decimal number ++ behind.now)) }
{
    write!(text, "{number}")?;
    text.push_str(behind)?;
    Ok(())
}

/// The line of an entry.
fn push_entry(text: &mut String, entry: &JournalEntry) -> Result<(), NoMemory>
    ensures { OnOk result (string_bytes text.new ≡ string_bytes text.old ++ entry_line entry.now) }
{
    push_number(text, entry.clock, " ")?;
    push_number(text, u64::from(entry.actor), " ")?;
    push_number(text, u64::from(entry.kind), " ")?;
    push_number(text, u64::from(entry.a), " ")?;
    push_number(text, u64::from(entry.b), " ")?;
    push_number(text, u64::from(entry.c), "\n")
}

/// Adds the line of an entry. The text only lends its room.
fn push_line(octets: &mut Octets, text: &mut String, entry: &JournalEntry) -> Result<(), NoMemory>
    ensures { OnOk result (octets.new ≡ octets.old ++ entry_line entry.now) }
{
    text.clear();
    push_entry(text, entry)?;
    octets.extend(text.as_bytes())
}

/// Adds the lines of the entries.
fn push_entries(
    octets: &mut Octets,
    alloc: Global,
    journal: &[JournalEntry],
) -> Result<(), NoMemory>
    ensures { OnOk result (octets.new ≡ octets.old ++ flat_map entry_line journal.now) }
{
    let mut text = String::new(alloc);
    for entry in journal {
        push_line(octets, &mut text, entry)?;
    }
    Ok(())
}

/// The journal of a run behind the input that was run: a line for each entry, with its clock, its actor, its kind and its arguments
/// in decimal.
pub fn journal_text(
    alloc: Global,
    input: &[u8],
    journal: &[JournalEntry],
) -> Result<Octets, NoMemory>
    ensures { IfOk result (λ text. text ≡ journal_text input.now journal.now) }
{
    let mut text = Octets::from_slice(alloc, input)?;
    text.extend(DIVIDER.as_bytes())?;
    push_entries(&mut text, alloc, journal)?;
    text.extend(END_LINE.as_bytes())?;
    Ok(text)
}
