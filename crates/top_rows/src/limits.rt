//! Runs that meet a limit: a stream that is too long, and a journal that is full. Their inputs are long, so they are made here.

use crate::case::Limit;
use graft_edge::NoMemory;
use lab_report::Lab;
use std::alloc::{AllocError, Global};
use std::fmt::Write;

/// A router, two remotes that say routes, and a third one that is told them.
const THREE_REMOTES: &str = r#"
home_as = 65000

[[router]]
name = "a"
id = "10.255.0.1"
sessions = 4

[[peering]]
name = "c1"
at = "a"
remote_as = 65001
remote_address = "192.0.2.1"
local_address = "192.0.2.2"

[[peering]]
name = "c2"
at = "a"
remote_as = 65002
remote_address = "192.0.2.3"
local_address = "192.0.2.4"

[[peering]]
name = "c3"
at = "a"
remote_as = 65003
remote_address = "192.0.2.5"
local_address = "192.0.2.6"

"#;

/// Journal limit, in events.
const FULL_JOURNAL: u64 = 4_194_304;

/// A remote at the first of eight routers.
const REMOTE: &str = r#"
[[peering]]
name = "c1"
at = "r0"
remote_as = 65001
remote_address = "192.0.2.1"
local_address = "192.0.2.2"

"#;

// Parts of an UPDATE, in hex.
const MARKER: &str = "ffffffffffffffffffffffffffffffff";

const ORIGIN: &str = "40010100";

const NEXT_HOP: &str = "400304c0000201";

/// Returns `octets` zero octets, in hex.
fn zeros(alloc: Global, octets: usize) -> Result<String, AllocError> {
    let mut hex = String::new(alloc);
    for _ in 0..octets {
        hex.push_str("00")?;
    }
    Ok(hex)
}

/// Appends a step whose UPDATE has 3,998 octets: a /24 prefix of this number, and an unknown transitive attribute of
/// 3,949 octets that begins with the number. It is told to others in 4,000 octets, with the home network's AS in its
/// path.
fn push_long_say(
    text: &mut String,
    peering: &str,
    as_hex: &str,
    number: u32,
    zeros: &str,
) -> Result<(), AllocError> {
    write!(
        text,
        "[[step]]\ndo = \"raw\"\npeering = \"{peering}\"\nhex = \"{MARKER}0f9e0200000f83{ORIGIN}4002040201{as_hex}{NEXT_HOP}"
    )?;
    write!(text, "d0630f6d{number:04x}{zeros}180a{number:04x}\"\n\n")
}

/// Returns an input with two remotes that say 200 long UPDATEs each, which are told to a third. OPEN and KEEPALIVE take
/// 48 octets of the stream to it, 261 UPDATEs of 4,000 octets fit after them into 1,044,480, and one more doesn't: with
/// it the stream would have 1,048,048.
fn long_stream(alloc: Global) -> Result<String, AllocError> {
    let zeros = zeros(alloc, 3_947)?;
    let mut text = String::new(alloc);
    text.push_str(THREE_REMOTES)?;
    for number in 0..200 {
        push_long_say(&mut text, "c1", "fde9", number, zeros.as_str())?;
        push_long_say(&mut text, "c2", "fdea", number + 200, zeros.as_str())?;
    }
    Ok(text)
}

/// Returns the 256 /24 prefixes of one /16, in the wire format of an UPDATE, in hex.
fn part_hex(alloc: Global, part: u32) -> Result<String, AllocError> {
    let mut hex = String::new(alloc);
    for index in 0..256u32 {
        write!(hex, "180a{part:02x}{index:02x}")?;
    }
    Ok(hex)
}

/// Returns a group that announces 4,096 prefixes, or withdraws them: 16 UPDATEs, of 1,065 octets or of 1,047.
fn group(alloc: Global, announces: bool) -> Result<String, AllocError> {
    let mut text = String::new(alloc);
    for part in 0..16 {
        let prefixes = part_hex(alloc, part)?;
        text.push_str("[[step]]\ndo = \"raw\"\npeering = \"c1\"\nhex = \"")?;
        if announces {
            write!(
                text,
                "{MARKER}04290200000012{ORIGIN}4002040201fde9{NEXT_HOP}{prefixes}"
            )?;
        } else {
            write!(text, "{MARKER}0417020400{prefixes}0000")?;
        }
        text.push_str("\"\n\n")?;
    }
    text.push_str("[[step]]\ndo = \"settle\"\n\n")?;
    Ok(text)
}

/// Appends eight routers, with a remote at the first one.
fn push_eight_routers(text: &mut String) -> Result<(), AllocError> {
    text.push_str("home_as = 65000\n\n")?;
    for index in 0..8u32 {
        write!(
            text,
            "[[router]]\nname = \"r{index}\"\nid = \"10.255.{index}.1\"\nsessions = 4\n\n"
        )?;
    }
    text.push_str(REMOTE)
}

/// Returns an input with eight routers, and 60 groups that announce and withdraw 4,096 prefixes in turn. About nine of
/// them fill the journals.
fn long_journal(alloc: Global) -> Result<String, AllocError> {
    let announced = group(alloc, true)?;
    let withdrawn = group(alloc, false)?;
    let mut text = String::new(alloc);
    push_eight_routers(&mut text)?;
    for _ in 0..30 {
        text.push_str(announced.as_str())?;
        text.push_str(withdrawn.as_str())?;
    }
    Ok(text)
}

/// Returns an input whose run ends at a limit.
pub fn input_to(alloc: Global, limit: Limit) -> Result<String, AllocError> {
    match limit {
        Limit::Stream => long_stream(alloc),
        Limit::Journal => long_journal(alloc),
    }
}

/// Returns whether this number of events fills a journal, and equals the number that the journal has.
fn is_full(number: &str, journal: u64) -> bool {
    match number.parse::<u64>() {
        Ok(events) => events >= FULL_JOURNAL && events == journal,
        Err(_) => false,
    }
}

/// Appends the line that says how a run ended. The number of events that fill the journals isn't worked out by hand: N
/// stands for any number that is possible.
pub fn push_end(text: &mut String, line: &str, lab: &Lab) -> Result<(), NoMemory> {
    match line.strip_prefix("result journal-full events ") {
        Some(number) if is_full(number, lab.journal.len() as u64) => {
            write!(
                text,
                "result journal-full events N, at least {FULL_JOURNAL} and as many as the journal has"
            )?;
        }
        _ => text.push_str(line)?,
    }
    Ok(())
}
