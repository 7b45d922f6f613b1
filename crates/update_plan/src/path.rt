//! Paths with one more AS in front, without making a copy (RFC 4271, section 5.1.2).

ghost use Rattle.std.specs.Prelude.{◌≡◌, ◌↔◌, IsTrue};
ghost use Rattle.route_policy.specs.Paths.{prepend};
ghost use Rattle.update_plan.specs.Passing.{first_ases, parts_behind};

use bgp_types::{MOST_ASES, PathPart};
/// Returns the ASes of a leading sequence that has room for one more, and the parts behind it. If there
/// is no such sequence, it returns no AS and the whole path.
pub(crate) fn split(path: &[PathPart]) -> (&[u32], &[PathPart])
    ensures ases { result.0.now ≡ first_ases path.now }
    ensures parts { result.1.now ≡ parts_behind path.now }
{
    match path {
        [PathPart::Sequence(ases), parts @ ..] if ases.len() < MOST_ASES => {
            (ases.as_slice(), parts)
        }
        _ => (&[], path),
    }
}

/// Whether these are the ASes and the parts into which a path is split.
fn is_split(ases: &[u32], parts: &[PathPart], path: &[PathPart]) -> bool
    ensures { IsTrue result ↔ ((ases.now ≡ first_ases path.now) × (parts.now ≡ parts_behind path.now)) }
{
    let (old_ases, old_parts) = split(path);
    if ases != old_ases {
        return false;
    }
    parts == old_parts
}

/// Whether a path is another one with this AS in front.
#[tactic(auto, using(crate::proofs::Prepended::prepended))]
pub(crate) fn is_prepended(longer: &[PathPart], as_number: u32, path: &[PathPart]) -> bool
    ensures { IsTrue result ↔ (longer.now ≡ prepend as_number path.now) }
{
    let [PathPart::Sequence(ases), parts @ ..] = longer else {
        return false;
    };
    let [first, further @ ..] = ases.as_slice() else {
        return false;
    };
    if *first != as_number {
        return false;
    }
    is_split(further, parts, path)
}
