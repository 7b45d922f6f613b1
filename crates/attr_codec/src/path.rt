//! The value of an AS_PATH (RFC 4271, section 4.3) or an AS4_PATH (RFC 6793, section 3).

ghost use Rattle.std.specs.Prelude.{◌≡◌, ◌*◌, ◌≤◌, ◌<◌, length, IfOk, IfSome};
ghost use Rattle.std.specs.Option.{option_map};
ghost use Rattle.std.specs.Int.{byte_len};
ghost use Rattle.bgp_types.specs.PathOctets.{as_width, numbers, part_at, path_of};

use crate::number::as_in;
use bgp_types::{AsList, AsPath, NoMemory, PathPart, as_size};
use std::alloc::Global;

/// Reads `count` ASes.
fn ases_in(alloc: Global, wide: bool, count: u8, octets: &[u8]) -> Result<AsList, NoMemory>
    requires { count * byte_len (as_width wide) ≤ length octets.now }
    ensures { IfOk result (λ ases. ases ≡ numbers (as_width wide) count octets.now) }
{
    let mut ases = Vec::with_capacity(alloc, usize::from(count))?;
    let mut rest = octets;
    for _ in 0..count {
        let (front, after) = rest.split_at(as_size(wide));
        ases.push(as_in(wide, front))?;
        rest = after;
    }
    Ok(AsList::from_vec(ases))
}

/// Reads the part at the front, and returns the octets after it too.
#[tactic(auto, unfolding(bgp_types::specs::PathOctets::part_at))]
fn part_in(alloc: Global, wide: bool, octets: &[u8]) -> Result<Option<(PathPart, &[u8])>, NoMemory>
    ensures part { IfOk result (λ found. option_map (λ x. (x.0, x.1.now)) found ≡ part_at wide octets.now) }
    ensures shorter { IfOk result (λ found. IfSome found (λ x. length x.1.now < length octets.now)) }
{
    let [kind, count, rest @ ..] = octets else {
        return Ok(None);
    };
    let size = usize::from(*count) * as_size(wide);
    if *count == 0 || rest.len() < size {
        return Ok(None);
    }
    let ases = ases_in(alloc, wide, *count, rest)?;
    let (_, after) = rest.split_at(size);
    match *kind {
        1 => Ok(Some((PathPart::Set(ases), after))),
        2 => Ok(Some((PathPart::Sequence(ases), after))),
        _ => Ok(None),
    }
}

/// Reads the path that is the whole value. Returns `None` if the value is malformed.
pub fn path_in(alloc: Global, wide: bool, value: &[u8]) -> Result<Option<AsPath>, NoMemory>
    ensures { IfOk result (λ found. found ≡ path_of wide value.now) }
{
    let mut path = AsPath::new(alloc);
    let mut rest = value;
    while !rest.is_empty() {
        let Some((part, after)) = part_in(alloc, wide, rest)? else {
            return Ok(None);
        };
        path.push(part)?;
        rest = after;
    }
    Ok(Some(path))
}
