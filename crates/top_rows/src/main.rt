//! Reads commands, one a line, and prints how each one ends. The contract of the top call is proved for all words and
//! sources. These are commands as people type them, worked out by hand, with each status but 6, for too little memory,
//! and each fault of a source and a sink.
#![tactic(auto)]

mod case;
mod end;
mod gate;
mod limits;
mod seen;

use crate::case::Case;
use crate::end::end_of;
use crate::limits::input_to;
use anyhow::Result;
use std::alloc::Global;
use std::fmt::Write;
use std::rt::Files;
use std::thread::Threads;
use std::{fs, io};

/// Returns the text of a case's input: none, empty lines, one that leads to a limit, or a file.
fn text_of<R: Files + AllocGlobal>(rt: &R, case: &Case<'_>) -> Result<String> {
    if let Some(lines) = case.empty_lines() {
        return Ok("\n".repeat(rt.alloc(), lines as usize)?);
    }
    if let Some(limit) = case.limit() {
        return Ok(input_to(rt.alloc(), limit)?);
    }
    match case.input {
        "" => Ok(String::new(rt.alloc())),
        name => Ok(fs::read_to_string(rt, name)?),
    }
}

/// Returns the octets that a text has in hexadecimal, with white space between them.
fn octets_in(alloc: Global, text: &str) -> Result<Vec<u8>> {
    let mut digits = String::new(alloc);
    for word in text.split_whitespace() {
        digits.push_str(word)?;
    }
    Ok(hex::decode(alloc, digits)?)
}

/// Returns a case's input.
fn input_of<R: Files + AllocGlobal>(rt: &R, case: &Case<'_>) -> Result<Vec<u8>> {
    let text = text_of(rt, case)?;
    if case.is_in_hex() {
        return octets_in(rt.alloc(), text.as_str());
    }
    Ok(text.into_bytes())
}

/// Returns how a case ends. If it is run by 1, 2, 4 and 8 workers, it must end in the same way each time; each other
/// end is printed.
fn ends_of<R: Threads + Sync + AllocGlobal>(
    rt: &R,
    case: &Case<'_>,
    input: &[u8],
) -> Result<String> {
    let end = end_of(rt, case, "1", input)?;
    if !case.is_by_each() {
        return Ok(end);
    }
    let mut ends = end.clone()?;
    for workers in ["2", "4", "8"] {
        let other = end_of(rt, case, workers, input)?;
        if other == end {
            write!(ends, "\nthe same by {workers} workers")?;
        } else {
            write!(ends, "\nby {workers} workers:\n{other}")?;
        }
    }
    Ok(ends)
}

fn main(rt: HostRuntime) -> Result<()> {
    let text = io::read_to_string(rt.alloc(), rt.reader())?;
    for line in text.lines() {
        println!(rt; "{line}")?;
        if line.is_empty() || line.starts_with('#') {
            continue;
        }
        let case = Case::of(line);
        let input = input_of(&rt, &case)?;
        let ends = ends_of(&rt, &case, &input)?;
        println!(rt; "{ends}")?;
    }
    Ok(())
}
