//! Words of rows, and texts of answers.

use anyhow::{Result, bail};
use bgp_session::{ReadStep, TickStep};
use bgp_types::Prefix;
use row_harness::word;
use std::alloc::Global;
use tcp_seq::Segment;

/// Reads octets in hexadecimal; `-` for none.
pub fn octets(alloc: Global, words: &[&str], index: usize) -> Result<Vec<u8>> {
    match word(words, index) {
        "-" => Ok(Vec::new(alloc)),
        word => Ok(hex::decode(alloc, word)?),
    }
}

/// Reads the capabilities of the OPEN: whether it has that for four-octet AS numbers, and whether that for IPv4
/// unicast.
pub fn capabilities(word: &str) -> Result<(bool, bool)> {
    match word {
        "narrow" => Ok((false, false)),
        "wide" => Ok((true, false)),
        "unicast" => Ok((false, true)),
        "both" => Ok((true, true)),
        _ => bail!("narrow, wide, unicast or both"),
    }
}

fn listed(alloc: Global, word: &str, prefixes: &[Prefix]) -> Result<String> {
    let mut text = format!(in alloc; "{word}")?;
    for prefix in prefixes {
        text = format!(in alloc; "{text} {prefix}")?;
    }
    Ok(text)
}

pub fn read_text(alloc: Global, step: &Option<ReadStep>) -> Result<String> {
    match step {
        None => listed(alloc, "nothing", &[]),
        Some(ReadStep::Opened) => listed(alloc, "opened", &[]),
        Some(ReadStep::Established) => listed(alloc, "established", &[]),
        Some(ReadStep::Changed(prefixes)) => listed(alloc, "changed", prefixes.as_slice()),
        Some(ReadStep::Closed(prefixes)) => listed(alloc, "closed", prefixes.as_slice()),
    }
}

pub fn tick_text(alloc: Global, step: &TickStep) -> Result<String> {
    match step {
        TickStep::Plain => listed(alloc, "plain", &[]),
        TickStep::Beat => listed(alloc, "beat", &[]),
        TickStep::Expired(prefixes) => listed(alloc, "expired", prefixes.as_slice()),
    }
}

/// Returns the sequence number and the acknowledgement of a segment, and its octets in hexadecimal.
pub fn segment_text(alloc: Global, segment: &Option<Segment>) -> Result<String> {
    match segment {
        None => listed(alloc, "none", &[]),
        Some(segment) => {
            let (seq, ack) = (segment.seq.0, segment.ack.0);
            let bytes = hex::encode_upper(alloc, segment.bytes.as_slice())?;
            Ok(format!(in alloc; "{seq} {ack} [{bytes}]")?)
        }
    }
}
