//! Reads cases of inputs and prints what each one is read as. What the library gives is proved; these
//! are worked cases in TOML as people write it, with answers from the rules of its keys.
//!
//! The text has parts, separated by lines `====`. A part begins with an input. A case is a line `== what
//! it shows`, followed by changes of that input, one a line:
//!
//! - `-line` leaves this line out, and the lines that follow as `+line` replace it;
//! - `>line` is a line of an input of its own;
//! - `*n text` is the text n times, in place of `+` or `>`: `\n` in it ends a line, and in copy k, counted
//!   from 0, `@0` is k modulo 256, `@1` is k divided by 256, and `@n` is k + 1;
//! - `!crlf` ends lines by CR and LF, `!bom` adds a byte order mark at the start, `!pad n` adds a comment up to n
//!   bytes, and `!byte n` replaces everything by one byte;
//! - `!show` prints an accepted input in full; without it a line says that the input is accepted;
//! - `!hint` prints the hint for an input that is refused.
#![tactic(auto)]

use bgp_types::{Address, PrefixList};
use lab_hints::hint_text;
use lab_input::{LabInput, LabStop, PeeringInput, RouterInput, Step, read_lab};
use std::alloc::{AllocError, Global};
use std::fmt::Write;
use std::{io, str};

/// Appends a line of copy `k`.
fn put_numbered(text: &mut String, line: &str, k: u32) -> Result<(), AllocError> {
    let mut pieces = line.split('@');
    if let Some(first) = pieces.next() {
        text.push_str(first)?;
    }
    for piece in pieces {
        if let Some(rest) = piece.strip_prefix("0") {
            write!(text, "{}{rest}", k % 256)?;
        } else if let Some(rest) = piece.strip_prefix("1") {
            write!(text, "{}{rest}", k / 256)?;
        } else if let Some(rest) = piece.strip_prefix("n") {
            write!(text, "{}{rest}", u64::from(k) + 1)?;
        } else {
            text.push_str(piece)?;
        }
    }
    Ok(())
}

/// Appends copies of a text.
fn put_copies(text: &mut String, change: &str) -> Result<(), AllocError> {
    let (count, copy) = change.split_once(" ").unwrap_or((change, ""));
    for k in 0..count.parse::<u32>().unwrap_or(0) {
        for line in copy.split("\\n") {
            put_numbered(text, line, k)?;
            text.push_str("\n")?;
        }
    }
    Ok(())
}

/// Appends a line that a change adds.
fn put_in(text: &mut String, change: &str) -> Result<(), AllocError> {
    if let Some(copies) = change.strip_prefix("*") {
        return put_copies(text, copies);
    }
    if let Some(line) = change.strip_prefix("+") {
        text.push_str(line)?;
        text.push_str("\n")?;
    }
    if let Some(line) = change.strip_prefix(">") {
        text.push_str(line)?;
        text.push_str("\n")?;
    }
    Ok(())
}

/// Appends a line of the input that a case changes, or the lines that replace it.
fn put_line(text: &mut String, case: &str, line: &str) -> Result<(), AllocError> {
    let mut is_out = false;
    let mut is_here = false;
    for change in case.lines() {
        if let Some(left_out) = change.strip_prefix("-") {
            is_here = left_out == line;
            is_out = is_out || is_here;
        } else if is_here {
            put_in(text, change)?;
        }
    }
    if !is_out {
        text.push_str(line)?;
        text.push_str("\n")?;
    }
    Ok(())
}

/// Returns the lines of a case.
fn lines_of(alloc: Global, base: &str, case: &str) -> Result<String, AllocError> {
    let mut text = String::new(alloc);
    if case.lines().any(|change| change.starts_with(">")) {
        for change in case.lines() {
            put_in(&mut text, change)?;
        }
    } else {
        for line in base.lines() {
            put_line(&mut text, case, line)?;
        }
    }
    Ok(text)
}

/// Returns the same lines, ended by CR and LF.
fn with_crlf(alloc: Global, text: &str) -> Result<String, AllocError> {
    let mut other = String::new(alloc);
    for line in text.lines() {
        other.push_str(line)?;
        other.push_str("\r\n")?;
    }
    Ok(other)
}

/// Returns the text followed by a comment, so that it has `len` bytes.
fn padded(alloc: Global, text: String, len: usize) -> Result<String, AllocError> {
    let mut text = text;
    text.push_str("#")?;
    let mut chunk = String::new(alloc);
    for _ in 0..4096 {
        chunk.push_str("x")?;
    }
    for _ in 0..len.saturating_sub(text.len()) / 4096 {
        text.push_str(chunk.as_str())?;
    }
    for _ in text.len()..len {
        text.push_str("x")?;
    }
    Ok(text)
}

/// Returns the input of a case.
fn input_of(alloc: Global, base: &str, case: &str) -> Result<String, AllocError> {
    let mut text = lines_of(alloc, base, case)?;
    for change in case.lines() {
        if change == "!crlf" {
            text = with_crlf(alloc, text.as_str())?;
        } else if change == "!bom" {
            let rest = text;
            text = String::from_str(alloc, "\u{feff}")?;
            text.push_str(rest.as_str())?;
        } else if let Some(len) = change.strip_prefix("!pad ") {
            text = padded(alloc, text, len.parse::<usize>().unwrap_or(0))?;
        }
    }
    Ok(text)
}

/// Returns the byte that replaces all, if a case has one.
fn byte_of(case: &str) -> Option<u8> {
    let mut byte = None;
    for change in case.lines() {
        if let Some(number) = change.strip_prefix("!byte ") {
            byte = number.parse::<u8>().ok();
        }
    }
    byte
}

fn print_router(rt: &HostRuntime, router: &RouterInput) -> io::Result<()> {
    println!(rt;
        "  router {} {} {}",
        router.name,
        Address(router.id),
        router.sessions
    )
}

fn print_peering(rt: &HostRuntime, peering: &PeeringInput) -> io::Result<()> {
    let remote = Address(peering.remote_address);
    let local = Address(peering.local_address);
    let at = peering.at.0;
    println!(rt;
        "  peering {} at {at} {} {remote} {local}",
        peering.name, peering.remote_as
    )
}

fn print_prefixes(rt: &HostRuntime, prefixes: &PrefixList) -> io::Result<()> {
    for prefix in prefixes {
        print!(rt; " {prefix}")?;
    }
    println!(rt; "")
}

fn print_step(rt: &HostRuntime, step: &Step) -> io::Result<()> {
    match step {
        Step::Announce {
            peering,
            prefixes,
            attrs,
        } => {
            let next_hop = Address(attrs.next_hop);
            print!(rt;
                "  {} announces {:?} {:?} {next_hop} {:?} to",
                peering.0, attrs.origin, attrs.med, attrs.path
            )?;
            print_prefixes(rt, prefixes)
        }
        Step::Withdraw { peering, prefixes } => {
            print!(rt; "  {} withdraws", peering.0)?;
            print_prefixes(rt, prefixes)
        }
        other => println!(rt; "  {other:?}"),
    }
}

fn print_input(rt: &HostRuntime, input: &LabInput) -> io::Result<()> {
    println!(rt; "  home {}", input.home_as)?;
    for router in &input.routers {
        print_router(rt, router)?;
    }
    for peering in &input.peerings {
        print_peering(rt, peering)?;
    }
    for step in &input.steps {
        print_step(rt, step)?;
    }
    Ok(())
}

/// Returns whether a case has this line.
fn asks(changes: &str, word: &str) -> bool {
    changes.lines().any(|change| change == word)
}

/// Prints the hint for bytes that are refused.
fn print_hint(rt: &HostRuntime, bytes: &[u8], stop: &LabStop) -> io::Result<()> {
    let LabStop::Bad(bad) = stop else {
        return Ok(());
    };
    match hint_text(rt.alloc(), bytes, bad) {
        Ok(hint) => print!(rt; "  {}", str::from_utf8(&hint).unwrap_or("no text\n")),
        Err(stop) => println!(rt; "  {stop}"),
    }
}

/// Prints what bytes are read as, as a case asks for it.
fn print_read(rt: &HostRuntime, shows: &str, bytes: &[u8], changes: &str) -> io::Result<()> {
    match read_lab(rt.alloc(), bytes) {
        Ok(input) if asks(changes, "!show") => {
            println!(rt; "{shows}")?;
            print_input(rt, &input)
        }
        Ok(_) => println!(rt; "{shows}: an input"),
        Err(stop) => {
            println!(rt; "{shows}: {stop}")?;
            if asks(changes, "!hint") {
                print_hint(rt, bytes, &stop)?;
            }
            Ok(())
        }
    }
}

/// Prints what a case is read as.
fn print_case(rt: &HostRuntime, base: &str, case: &str) -> io::Result<()> {
    let (shows, changes) = case.split_once("\n").unwrap_or((case, ""));
    if let Some(byte) = byte_of(changes) {
        return print_read(rt, shows, &[byte], changes);
    }
    let text = input_of(rt.alloc(), base, changes)?;
    print_read(rt, shows, text.as_bytes(), changes)
}

fn main(rt: HostRuntime) -> io::Result<()> {
    let text = io::read_to_string(rt.alloc(), rt.reader())?;
    for part in text.split("\n====\n") {
        let (base, cases) = part.split_once("\n== ").unwrap_or(("", ""));
        for case in cases.split("\n== ") {
            print_case(&rt, base, case)?;
        }
    }
    Ok(())
}
