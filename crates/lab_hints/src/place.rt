//! A place in the bytes of an input, by line and column.

ghost use Rattle.std.specs.Prelude.{◌≡◌, ◌≤◌, ◌++◌, OnOk, string_bytes, length};
ghost use Rattle.lab_hints.specs.Hints.{begins_character as begins_character_lem, lines_in as lines_in_lem, columns_in as columns_in_lem, place_words};
ghost use Rattle.lab_hints.specs.Hints.{line_of as line_of_lem, column_of as column_of_lem};

use bgp_types::NoMemory;
use std::fmt::Write;

/// Returns the number of the line behind these bytes, counted from 0.
fn lines_in(before: &[u8]) -> usize
    ensures { result ≡ lines_in_lem before.now }
{
    before.iter().filter(|b| **b == b'\n').count()
}

/// Returns whether an octet of UTF-8 begins a character.
fn begins_character(b: u8) -> bool
    ensures { result ≡ begins_character_lem b }
{
    b < 128 || b > 191
}

/// Returns the number of characters between the last newline of these bytes and their end.
fn columns_in(before: &[u8]) -> usize
    ensures { result ≡ columns_in_lem before.now }
{
    before
        .iter()
        .rev()
        .take_while(|b| **b != b'\n')
        .filter(|b| begins_character(**b))
        .count()
}

/// Returns the line of a place in bytes, counted from 1.
fn line_of(bytes: &[u8], at: usize) -> usize
    requires { at ≤ length bytes.now }
    ensures { result ≡ line_of_lem bytes.now at }
{
    lines_in(&bytes[..at]) + 1
}

/// Returns the column of a place in bytes, counted from 1.
fn column_of(bytes: &[u8], at: usize) -> usize
    requires { at ≤ length bytes.now }
    ensures { result ≡ column_of_lem bytes.now at }
{
    columns_in(&bytes[..at]) + 1
}

/// Adds the line and the column of a place in bytes, and what is wrong there.
pub(crate) fn push_place(
    text: &mut String,
    bytes: &[u8],
    at: usize,
    message: &str,
) -> Result<(), NoMemory>
    requires { at ≤ length bytes.now }
    ensures { OnOk result (string_bytes text.new ≡ string_bytes text.old ++ place_words bytes.now at message.now) }
{
    let line = line_of(bytes, at);
    let column = column_of(bytes, at);
    write!(text, "line {line} column {column}: {message}")?;
    Ok(())
}
