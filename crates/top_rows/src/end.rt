//! How a command ends.

use crate::case::{Case, Shown};
use crate::gate::CountingGate;
use crate::limits::push_end;
use crate::seen::{push_octets, push_seen, push_told};
use graft_edge::{MemSink, MemSource, NoMemory, Words};
use lab_report::Lab;
use lab_top::{Finish, graft_main};
use std::alloc::Global;
use std::fmt::Write;
use std::str;
use std::thread::Threads;

/// Returns the words after the program's name, separated by single spaces, with the number of workers in place of `*`.
fn words_of(alloc: Global, line: &str, workers: &str) -> Result<Words, NoMemory> {
    let mut words = Words::new(alloc);
    for word in line.split(' ').skip(1) {
        words.push(if word == "*" { workers } else { word })?;
    }
    Ok(words)
}

/// Returns the outcome of a command. Nothing is assumed here of its contract.
fn finish_of<R: Threads + Sync + AllocGlobal>(
    rt: &R,
    words: &Words,
    source: &mut MemSource,
    sink: &mut MemSink,
    gate: &CountingGate,
) -> Finish {
    graft_main(rt, words, source, sink, gate)
}

/// Returns what a command wrote, on lines of its own: octets that are no text in hexadecimal.
fn written_text(alloc: Global, written: &[u8]) -> Result<String, NoMemory> {
    let mut text = String::new(alloc);
    match str::from_utf8(written) {
        Ok(lines) => text.push_str(lines)?,
        Err(_) => {
            text.push_str("octets:")?;
            push_octets(&mut text, written)?;
        }
    }
    if !text.is_empty() && !text.ends_with("\n") {
        text.push_str("\n")?;
    }
    Ok(text)
}

/// Appends what is to be shown of a run, and whether each turn passed the gate.
fn push_run(
    text: &mut String,
    lab: &Lab,
    gate: &CountingGate,
    shown: Shown,
) -> Result<(), NoMemory> {
    match shown {
        Shown::Nothing => {}
        Shown::Told => push_told(text, lab)?,
        Shown::All => push_seen(text, lab)?,
    }
    write!(text, "\ngate: {}", gate.verdict(lab))?;
    Ok(())
}

/// Returns what a command wrote, its status and the number of bytes that it wrote, and what is seen of its run.
fn told(
    alloc: Global,
    finish: &Finish,
    written: &[u8],
    gate: &CountingGate,
    shown: Shown,
) -> Result<String, NoMemory> {
    let mut text = written_text(alloc, written)?;
    write!(text, "status {}, {} bytes", finish.status, written.len())?;
    match &finish.lab {
        Some(lab) => push_run(&mut text, lab, gate, shown)?,
        None => {}
    }
    Ok(text)
}

/// Returns the text for a run that meets a limit: how it ended, its status, and whether each turn passed the gate.
fn told_of_limit(
    alloc: Global,
    finish: &Finish,
    written: &[u8],
    gate: &CountingGate,
) -> Result<String, NoMemory> {
    let whole = written_text(alloc, written)?;
    let line = whole.lines().next().unwrap_or("");
    let mut text = String::new(alloc);
    match &finish.lab {
        Some(lab) => {
            push_end(&mut text, line, lab)?;
            write!(
                text,
                "\nstatus {}\ngate: {}",
                finish.status,
                gate.verdict(lab)
            )?;
        }
        None => write!(text, "{line}\nstatus {}", finish.status)?,
    }
    Ok(text)
}

/// Returns the outcome of a case by a number of workers: what its command wrote, its status, and what is seen of its
/// run.
pub fn end_of<R: Threads + Sync + AllocGlobal>(
    rt: &R,
    case: &Case<'_>,
    workers: &str,
    input: &[u8],
) -> Result<String, NoMemory> {
    let alloc = rt.alloc();
    let words = words_of(alloc, case.words, workers)?;
    let mut source = MemSource::new(alloc, input, 64, &[case.read_fails])?;
    let mut sink = MemSink::new(alloc, case.room(), 16, &[case.write_fails])?;
    let gate = CountingGate::new();
    let finish = finish_of(rt, &words, &mut source, &mut sink, &gate);
    if case.limit().is_some() {
        return told_of_limit(alloc, &finish, sink.written(), &gate);
    }
    told(alloc, &finish, sink.written(), &gate, case.shown())
}
