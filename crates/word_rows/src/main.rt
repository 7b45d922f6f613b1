//! Commands as people type them, and the job that each one asks for, or the hint for one that asks for none. Which words are
//! accepted, and what is said of others, is proved; these are worked cases.
#![tactic(auto)]

use anyhow::Result;
use graft_edge::Words;
use lab_words::{read_words, refused_text};
use row_harness::{Table, answer_rows};
use std::alloc::Global;

/// The commands of the rows.
#[derive(Drop)]
struct Commands;

/// Returns the words of a command.
fn command_of(alloc: Global, words: &[&str]) -> Result<Words> {
    let mut command = Words::new(alloc);
    for word in words {
        command.push(word)?;
    }
    Ok(command)
}

/// Returns the job that a command asks for, in words.
fn job_of(alloc: Global, words: &[&str]) -> Result<String> {
    match read_words(alloc, &command_of(alloc, words)?) {
        Ok(job) => Ok(format!(in alloc; "{job:?}")?),
        Err(stop) => Ok(format!(in alloc; "{stop}")?),
    }
}

/// Returns the hint for a command that asks for nothing: the line behind the usage line.
fn hint_of(alloc: Global, words: &[&str]) -> Result<String> {
    let text = refused_text(alloc, &command_of(alloc, words)?)?;
    let text = String::from_utf8_lossy(alloc, &text)?;
    let hint = text.lines().skip(1).next().unwrap_or("");
    Ok(String::from_str(alloc, hint)?)
}

impl Table for Commands {
    /// The answer to a command; behind `!`, the hint for it.
    fn answer(&mut self, alloc: Global, words: &[&str]) -> Result<String> {
        match words.split_first() {
            Some((first, words)) if *first == "!" => hint_of(alloc, words),
            _ => job_of(alloc, words),
        }
    }
}

fn main(rt: HostRuntime) -> Result<()> {
    answer_rows(&rt, &mut Commands)
}
