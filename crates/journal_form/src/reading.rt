//! A journal that is read from its text.

ghost use Rattle.std.specs.Prelude.{◌≡◌, ◌<◌, ◌+◌, ◌^◌, ◌++◌, ℕ, length, Err, IfOk, MatchOption};
ghost use Rattle.journal_form.specs.Journals.{end_line, entry_line};
ghost use Rattle.journal_form.specs.Reading.{AreLinesOf, BeginsWithEntry, Divides, FitsWidths, HasDividingLine, HasFault, IsAtFault};

use crate::number::read_number;
use crate::writing::{DIVIDER, DIVIDING_LINE, END_LINE};
use graft_edge::NoMemory;
use memchr::memmem;
use ring_net::{Journal, JournalEntry};
use std::alloc::Global;
use thiserror::Error;

/// Why the lines behind the dividing line aren't those of a journal.
#[derive(Clone, Copy, Debug, PartialEq, Eq, Hash, Error)]
pub enum JournalStop {
    /// This line, counted from 0, is the first that isn't as in a journal.
    #[error("line {0} isn't one of a journal")]
    Line(usize),
    #[error("no memory")]
    NoMemory,
}

impl From<NoMemory> for JournalStop {
    ghost use Rattle.std.specs.Prelude.{◌≡◌};
    ghost use Rattle.journal_form.specs.declared.reading.JournalStop.TheVariants as stops;

    ghost from_gives = { λ _ stop. stop ≡ stops.NoMemory };

    fn from(_error: NoMemory) -> JournalStop {
        JournalStop::NoMemory
    }
}

/// The greatest number of a field with 16 bits, and of one with 32 bits.
const MOST_16: u64 = u16::MAX as u64;

const MOST_32: u64 = u32::MAX as u64;

/// Divides the text of a journal at its last line `%% journal 1`, whatever lines stand before it.
/// Returns the bytes of the input, which stand before the one newline in front of that line, and what
/// stands behind the line. The input is empty if that line is the text's first. Returns `None` if the
/// text has no such line. A line ends at a newline, so bytes behind the last newline are no line.
pub fn divide(text: &[u8]) -> Option<(&[u8], &[u8])>
    ensures { MatchOption result (¬ HasDividingLine text.now) (λ parts. Divides text.now parts.0.now parts.1.now) }
{
    let divider = DIVIDER.as_bytes();
    let line = DIVIDING_LINE.as_bytes();
    match memmem::rfind(text, divider) {
        Some(at) => Some((&text[..at], &text[at + divider.len()..])),
        None => Some((&text[..0], text.strip_prefix(line)?)),
    }
}

/// Reads the line of an entry that a text begins with, and returns what stands behind it.
fn read_entry(text: &[u8]) -> Option<(JournalEntry, &[u8])>
    ensures { MatchOption result (¬ BeginsWithEntry text.now) (λ found. FitsWidths found.0 × (text.now ≡ entry_line found.0 ++ found.1.now)) }
{
    let (clock, text) = read_number(text, u64::MAX, b' ')?;
    let (actor, text) = read_number(text, MOST_16, b' ')?;
    let (kind, text) = read_number(text, MOST_16, b' ')?;
    let (a, text) = read_number(text, MOST_32, b' ')?;
    let (b, text) = read_number(text, MOST_32, b' ')?;
    let (c, text) = read_number(text, MOST_32, b'\n')?;
    let entry = JournalEntry {
        clock,
        actor: actor as u16,
        kind: kind as u16,
        a: a as u32,
        b: b as u32,
        c: c as u32,
    };
    Some((entry, text))
}

/// Ends the reading of these entries, where this text is left behind their lines.
fn end_reading(entries: Journal, left: &[u8]) -> Result<Journal, JournalStop>
    requires end { ¬ BeginsWithEntry left.now }
    requires fits { length entries + length left.now < 2 ^ 64 }
    ensures entries { IfOk result (λ journal. (journal ≡ entries) × (left.now ≡ end_line)) }
    ensures fault { (i : ℕ) → result ≡ Err (JournalStop.Line i) → HasFault (length entries) left.now i }
{
    let count = entries.len();
    let Some(behind) = left.strip_prefix(END_LINE.as_bytes()) else {
        return Err(JournalStop::Line(count));
    };
    if !behind.is_empty() {
        return Err(JournalStop::Line(count + 1));
    }
    Ok(entries)
}

/// Reads what stands behind the dividing line: a line for each entry, with six decimals without
/// leading zeros that are joined by single spaces, then the line `%% end`, and nothing behind it. Each
/// line ends at a newline. The first line that isn't so is at fault, counted from 0; if the line
/// `%% end` is missing, that is the place where it is missing.
pub fn read_entries(alloc: Global, rest: &[u8]) -> Result<Journal, JournalStop>
    ensures entries { IfOk result (λ entries. AreLinesOf entries rest.now) }
    ensures fault { (i : ℕ) → result ≡ Err (JournalStop.Line i) → IsAtFault rest.now i }
{
    let mut entries = Journal::new(alloc);
    let mut left = rest;
    while let Some((entry, behind)) = read_entry(left) {
        entries.push(entry)?;
        left = behind;
    }
    end_reading(entries, left)
}
