//! AS paths (RFC 4271, section 4.3).

ghost use Rattle.std.specs.Prelude.{◌≡◌, ◌↔◌, ◌-◌, ◌^◌, min, IsTrue, Contains};
ghost use Rattle.bgp_types.specs.Paths.{part_count, path_count, neighbour_of, ases_of, HoldsAs};

use graft_edge::{Items, NoMemory, TryCopy};

/// A list of AS numbers.
pub type AsList = Items<u32>;

/// The most ASes in a part of a path, whose count is one octet (RFC 4271, section 4.3).
pub const MOST_ASES: usize = 255;

/// A segment of a path: a set of ASes, or a sequence of ASes with the last one that the route passed
/// first. A part has 1 to 255 ASes.
#[derive(Debug, Drop, PartialEq, Eq)]
pub enum PathPart {
    Set(AsList),
    Sequence(AsList),
}

/// The path of a route. The part that it passed last stands first.
pub type AsPath = Items<PathPart>;

impl TryCopy for PathPart {
    // A sequence is copied with room for one more AS, which is put in front when the route is advertised.
    fn copy(&self) -> Result<PathPart, NoMemory> {
        match self {
            PathPart::Set(ases) => Ok(PathPart::Set(ases.copy()?)),
            PathPart::Sequence(ases) => Ok(PathPart::Sequence(ases.with_room(1)?)),
        }
    }
}

/// Returns the number of ASes that a part counts as.
fn part_len(part: &PathPart) -> u32
    ensures { result ≡ min (part_count part.now) (2 ^ 32 - 1) }
{
    match part {
        PathPart::Set(_) => 1,
        PathPart::Sequence(ases) => u32::try_from(ases.len()).unwrap_or(u32::MAX),
    }
}

/// Returns the length of a path: each AS of a sequence counts, and a set counts as one (RFC 4271,
/// section 9.1.2.2). A count above 2^32 - 1 is given as that number.
pub fn path_len(path: &AsPath) -> u32
    ensures { result ≡ min (path_count path.now) (2 ^ 32 - 1) }
{
    let mut count = 0u32;
    for part in path.iter() {
        count = count.saturating_add(part_len(part));
    }
    count
}

/// Returns the neighbour AS of a route with this path: the first AS of a leading sequence, else the
/// home AS.
pub fn neighbour(path: &AsPath, home_as: u32) -> u32
    ensures { result ≡ neighbour_of path.now home_as }
{
    match path.as_slice() {
        [PathPart::Sequence(ases), ..] => match ases.as_slice() {
            [as_number, ..] => *as_number,
            [] => home_as,
        },
        _ => home_as,
    }
}

/// Whether an AS is in a part.
fn part_holds(part: &PathPart, as_number: u32) -> bool
    ensures { IsTrue result ↔ Contains (ases_of part.now) as_number }
{
    match part {
        PathPart::Set(ases) => ases.contains(&as_number),
        PathPart::Sequence(ases) => ases.contains(&as_number),
    }
}

/// Whether an AS is in a path.
pub fn holds_as(path: &AsPath, as_number: u32) -> bool
    ensures { IsTrue result ↔ HoldsAs path.now as_number }
{
    path.iter().any(|part| part_holds(part, as_number))
}
