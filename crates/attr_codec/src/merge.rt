//! The path of a narrow UPDATE that has an AS4_PATH (RFC 6793, section 4.2.3, in this project's
//! profile).

ghost use Rattle.std.specs.Prelude.{◌≡◌, ◌++◌, ◌∷◌, [], IfOk, OnOk, take};
ghost use Rattle.bgp_types.specs.declared.path.PathPart.TheVariants as parts;
ghost use Rattle.bgp_types.specs.Merge.{lead_part, lead, join_parts, push_joined, meet, merged_path};
ghost use Rattle.bgp_types.specs.Paths.{part_count, path_count};

use bgp_types::{AsList, AsPath, MOST_ASES, NoMemory, PathPart, TryCopy};
use std::alloc::Global;
/// Returns the number of ASes that a part counts as; a set counts as one.
fn count_of(part: &PathPart) -> usize
    ensures { result ≡ part_count part.now }
{
    match part {
        PathPart::Set(_) => 1,
        PathPart::Sequence(ases) => ases.len(),
    }
}

/// Returns the number of ASes that a path counts as. A `u128` holds the count of every path.
fn count_in(path: &[PathPart]) -> u128
    ensures { result ≡ path_count path.now }
{
    let mut count = 0;
    for part in path {
        count += count_of(part) as u128;
    }
    count
}

/// Returns the first `most` ASes, or all if there are fewer.
fn front_of(ases: &[u32], most: u128) -> &[u32]
    ensures { result.now ≡ take most ases.now }
{
    if ases.len() as u128 <= most {
        return ases;
    }
    let (front, _) = ases.split_at(most as usize);
    front
}

/// Returns a set, or the first `count` ASes of a sequence.
fn front_in(alloc: Global, part: &PathPart, count: u128) -> Result<PathPart, NoMemory>
    ensures { IfOk result (λ p. p ≡ lead_part count part.now) }
{
    match part {
        PathPart::Set(ases) => Ok(PathPart::Set(ases.copy()?)),
        PathPart::Sequence(ases) => Ok(PathPart::Sequence(AsList::from_slice(
            alloc,
            front_of(ases, count),
        )?)),
    }
}

/// Returns the first parts of a path, which count as `count` ASes; the last one is cut if it is a
/// sequence.
fn lead_in(alloc: Global, path: &[PathPart], count: u128) -> Result<Vec<PathPart>, NoMemory>
    ensures { IfOk result (λ p. p.items ≡ lead count path.now) }
{
    let mut out = Vec::new(alloc);
    let mut left = count;
    for part in path {
        if left == 0 {
            return Ok(out);
        }
        out.push(front_in(alloc, part, left)?)?;
        left = left.saturating_sub(count_of(part) as u128);
    }
    Ok(out)
}

/// Appends two sequences, joined into one if it has room for both.
fn put_sequences(path: &mut Vec<PathPart>, front: AsList, back: AsList) -> Result<(), NoMemory>
    ensures { OnOk result (path.new.items ≡ path.old.items ++ join_parts (parts.Sequence front) (parts.Sequence back)) }
{
    let room = front.len() <= MOST_ASES && back.len() <= MOST_ASES - front.len();
    if room {
        let mut both = front;
        both.extend(&back)?;
        return Ok(path.push(PathPart::Sequence(both))?);
    }
    path.push(PathPart::Sequence(front))?;
    Ok(path.push(PathPart::Sequence(back))?)
}

/// Appends two parts.
fn put_two(path: &mut Vec<PathPart>, last: PathPart, part: PathPart) -> Result<(), NoMemory>
    ensures { OnOk result (path.new.items ≡ (path.old.items ++ last ∷ []) ++ part ∷ []) }
{
    path.push(last)?;
    Ok(path.push(part)?)
}

/// Appends two parts, joined if they are sequences and one has room for both.
fn put_parts(path: &mut Vec<PathPart>, last: PathPart, part: PathPart) -> Result<(), NoMemory>
    ensures { OnOk result (path.new.items ≡ path.old.items ++ join_parts last part) }
{
    match (last, part) {
        (PathPart::Sequence(front), PathPart::Sequence(back)) => put_sequences(path, front, back),
        (last, part) => put_two(path, last, part),
    }
}

/// Appends a part; if it and the last part are sequences, they may become one.
fn put_joined(path: &mut Vec<PathPart>, part: PathPart) -> Result<(), NoMemory>
    ensures { OnOk result (path.new.items ≡ push_joined path.old.items part) }
{
    match path.pop() {
        Some(last) => put_parts(path, last, part),
        None => Ok(path.push(part)?),
    }
}

/// Returns the parts of both, one list after the other; the parts that meet may be joined.
fn met(front: Vec<PathPart>, back: &[PathPart]) -> Result<AsPath, NoMemory>
    ensures { IfOk result (λ p. p ≡ meet front.items back.now) }
{
    let mut path = front;
    let [part, others @ ..] = back else {
        return Ok(AsPath::from_vec(path));
    };
    put_joined(&mut path, part.copy()?)?;
    for other in others {
        path.push(other.copy()?)?;
    }
    Ok(AsPath::from_vec(path))
}

/// Returns the path in which AS4_PATH replaces the end of AS_PATH, unless AS4_PATH counts more ASes
/// (RFC 6793, section 4.2.3). If memory runs out, both paths are lost.
#[tactic(auto, unfolding(bgp_types::specs::Merge::merged_path))]
pub fn merged(alloc: Global, path: AsPath, as4_path: AsPath) -> Result<AsPath, NoMemory>
    ensures { IfOk result (λ p. p ≡ merged_path path as4_path) }
{
    let count = count_in(&path);
    let as4_count = count_in(&as4_path);
    if count < as4_count {
        return Ok(path);
    }
    let front = lead_in(alloc, &path, count - as4_count)?;
    met(front, &as4_path)
}
