//! ASes put in front of paths (RFC 4271, section 5.1.2).

ghost use Rattle.std.specs.Prelude.{◌≡◌, IfOk};
ghost use Rattle.route_policy.specs.Paths.{has_room_for_as, with_as, prepend as prepend_lem, prepend_times as prepend_times_lem};

use bgp_types::{AsPath, Items, MOST_ASES, NoMemory, PathPart};
/// Whether a path begins with a sequence to which an AS can be added.
fn has_room(parts: &[PathPart]) -> bool
    ensures { result ≡ has_room_for_as parts.now }
{
    match parts {
        [PathPart::Sequence(ases), ..] => ases.len() < MOST_ASES,
        _ => false,
    }
}

/// Returns a part with one more AS in front.
fn add_in_front(part: PathPart, as_number: u32) -> Result<PathPart, NoMemory>
    ensures { IfOk result (λ longer. longer ≡ with_as as_number part) }
{
    match part {
        PathPart::Sequence(ases) => {
            let mut ases = ases.into_vec();
            ases.insert(0, as_number)?;
            Ok(PathPart::Sequence(Items::from_vec(ases)))
        }
        PathPart::Set(ases) => {
            let mut ases = ases.into_vec();
            ases.insert(0, as_number)?;
            Ok(PathPart::Set(Items::from_vec(ases)))
        }
    }
}

/// Returns a path with an AS put in front: in its leading sequence if that has room, since a part has
/// at most 255 ASes, else in a new sequence. If memory runs out, the path is lost.
pub fn prepend(path: AsPath, as_number: u32) -> Result<AsPath, NoMemory>
    ensures { IfOk result (λ longer. longer ≡ prepend_lem as_number path) }
{
    let mut parts = path.into_vec();
    let part = if has_room(&parts) {
        add_in_front(parts.remove(0), as_number)?
    } else {
        let mut ases = Items::new(*parts.allocator());
        ases.push(as_number)?;
        PathPart::Sequence(ases)
    };
    parts.insert(0, part)?;
    Ok(Items::from_vec(parts))
}

/// Returns a path with an AS put in front `times` times.
pub(crate) fn prepend_times(path: AsPath, as_number: u32, times: u8) -> Result<AsPath, NoMemory>
    ensures { IfOk result (λ longer. longer ≡ prepend_times_lem times as_number path) }
{
    let mut path = path;
    for _n in 0..times {
        path = prepend(path, as_number)?;
    }
    Ok(path)
}
