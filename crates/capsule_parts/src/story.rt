//! The lines of a story in octets.

ghost use Rattle.std.specs.Prelude.{◌≡◌, ◌≢◌, All, map, MatchBool, IfOk};
ghost use Rattle.capsule_parts.specs.Parts.{part_line as part_line_lem};
ghost use Rattle.capsule_parts.specs.Sound.{PutsWritable, put_octets as put_octets_lem, got_octets as got_octets_lem};

use bgp_story::Line;
use bgp_types::{Items, NoMemory, Octets, TryCopy};
use bgp_wire::write_message;
use capsule_bytes::{PartLine, PartLines};
use std::alloc::Global;

/// Returns a line in octets.
fn part_line(alloc: Global, line: &Line, wide: bool) -> Result<PartLine, NoMemory>
    requires { PutsWritable wide line.now }
    ensures { IfOk result (λ part. part ≡ part_line_lem wide line.now) }
{
    match line {
        Line::Put(message) => Ok(PartLine::Put(write_message(alloc, message, wide)?)),
        Line::Got(bytes) => Ok(PartLine::Got(bytes.copy()?)),
        Line::Tick(round) => Ok(PartLine::Tick(*round)),
    }
}

/// Returns lines in octets.
pub(crate) fn part_lines(alloc: Global, lines: &[Line], wide: bool) -> Result<PartLines, NoMemory>
    requires { All (PutsWritable wide) lines.now }
    ensures { IfOk result (λ parts. parts ≡ map (part_line_lem wide) lines.now) }
{
    let mut parts = Items::new(alloc);
    for line in lines.iter() {
        parts.push(part_line(alloc, line, wide)?)?;
    }
    Ok(parts)
}

/// Returns whether this is the line in octets.
fn is_part_line(alloc: Global, line: &Line, part: &PartLine, wide: bool) -> Result<bool, NoMemory>
    requires { PutsWritable wide line.now }
    ensures { IfOk result (λ same. MatchBool same (part.now ≡ part_line_lem wide line.now) (part.now ≢ part_line_lem wide line.now)) }
{
    match (line, part) {
        (Line::Put(message), PartLine::Put(octets)) => {
            Ok(write_message(alloc, message, wide)? == *octets)
        }
        (Line::Got(bytes), PartLine::Got(octets)) => Ok(bytes == octets),
        (Line::Tick(round), PartLine::Tick(other)) => Ok(round == other),
        _ => Ok(false),
    }
}

/// Returns whether these are the lines in octets.
pub(crate) fn are_part_lines(
    alloc: Global,
    lines: &[Line],
    parts: &[PartLine],
    wide: bool,
) -> Result<bool, NoMemory>
    requires { All (PutsWritable wide) lines.now }
    ensures { IfOk result (λ same. MatchBool same (parts.now ≡ map (part_line_lem wide) lines.now) (parts.now ≢ map (part_line_lem wide) lines.now)) }
{
    if lines.len() != parts.len() {
        return Ok(false);
    }
    for i in 0..lines.len() {
        if !is_part_line(alloc, &lines[i], &parts[i], wide)? {
            return Ok(false);
        }
    }
    Ok(true)
}

/// Returns the octets that a story puts, one message after another.
pub(crate) fn put_octets(alloc: Global, story: &[PartLine]) -> Result<Octets, NoMemory>
    ensures { IfOk result (λ octets. octets ≡ put_octets_lem story.now) }
{
    let mut octets = Octets::new(alloc);
    for line in story.iter() {
        if let PartLine::Put(message) = line {
            octets.extend(message.as_slice())?;
        }
    }
    Ok(octets)
}

/// Returns the octets that a story got.
pub(crate) fn got_octets(alloc: Global, story: &[PartLine]) -> Result<Octets, NoMemory>
    ensures { IfOk result (λ octets. octets ≡ got_octets_lem story.now) }
{
    let mut octets = Octets::new(alloc);
    for line in story.iter() {
        if let PartLine::Got(bytes) = line {
            octets.extend(bytes.as_slice())?;
        }
    }
    Ok(octets)
}
