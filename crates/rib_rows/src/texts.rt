//! Texts of the answers to rows.

use bgp_types::{AsPath, From, NoMemory, PathPart, Prefix, Route};
use std::alloc::Global;

/// Appends the AS numbers of a part.
fn push_part(text: &mut String, part: &PathPart) -> Result<(), NoMemory> {
    let ases = match part {
        PathPart::Set(ases) => ases,
        PathPart::Sequence(ases) => ases,
    };
    for as_number in ases.iter() {
        write!(text, " {as_number}")?;
    }
    Ok(())
}

/// Appends a path, or a dash if it is empty.
fn push_path(text: &mut String, path: &AsPath) -> Result<(), NoMemory> {
    text.push_str(" path")?;
    if path.is_empty() {
        text.push_str(" -")?;
    }
    for part in path.iter() {
        push_part(text, part)?;
    }
    Ok(())
}

/// Appends the preference and the path of a route.
pub fn push_route(text: &mut String, route: &Route) -> Result<(), NoMemory> {
    write!(text, "pref {}", route.pref)?;
    push_path(text, &route.attrs.path)
}

/// Returns the text of a route's source.
pub fn from_text(alloc: Global, from: From) -> Result<String, NoMemory> {
    Ok(match from {
        From::Own => format!(in alloc; "own ")?,
        From::Peering(p) => format!(in alloc; "peering {} ", p.0)?,
        From::Router(q) => format!(in alloc; "router {} ", q.0)?,
    })
}

/// Returns a list of prefixes as a text, or `nothing` if it is empty.
pub fn or_nothing(mut text: String) -> Result<String, NoMemory> {
    if text.is_empty() {
        text.push_str("nothing")?;
    }
    Ok(text)
}

/// Appends a prefix, after a comma if it isn't the first.
pub fn push_prefix(text: &mut String, prefix: Prefix) -> Result<(), NoMemory> {
    if !text.is_empty() {
        text.push_str(", ")?;
    }
    write!(text, "{prefix}")?;
    Ok(())
}
