//! The segments in a link.

ghost use Rattle.std.specs.Prelude.{◌≡◌, ◌<◌, ◌≤◌, ◌++◌, ◌∷◌, [], length, Some, IfSome, IfNone, IfOk, OnOk, slice_get};
ghost use Rattle.std.specs.List.{remove};
ghost use Rattle.audit_ruling.specs.declared.ruling.Ruling.TheVariants.{Refused, Silent};
ghost use Rattle.audit_far.specs.Parts.{left_in_bag};

use audit_ruling::Ruling;
use graft_edge::NoMemory;
use link_bag::Bag;
use tcp_seq::Segment;

/// Puts a segment into a bag.
pub(crate) fn put(bag: &mut Bag, segment: Segment) -> Result<(), NoMemory>
    ensures { OnOk result (bag.new ≡ bag.old ++ segment ∷ []) }
{
    match bag.put(segment) {
        Ok(()) => Ok(()),
        Err(_) => Err(NoMemory),
    }
}

/// Gives the segment at an index of a bag, if there is one: a copy if it is kept there, and otherwise the segment
/// itself.
pub(crate) fn give(bag: &mut Bag, index: u32, keep: bool) -> Result<Option<Segment>, NoMemory>
    ensures some { IfOk result (λ answer. IfSome answer
        (λ segment. (slice_get bag.old index ≡ Some segment) × (bag.new ≡ left_in_bag keep index bag.old))) }
    ensures none { IfOk result (λ answer. IfNone answer ((length bag.old ≤ index) × (bag.new ≡ bag.old))) }
{
    let index = index as usize;
    if index >= bag.len() {
        return Ok(None);
    }
    if keep {
        return Ok(Some(bag.deliver(index)?));
    }
    Ok(Some(bag.remove(index)))
}

/// Loses the segment at an index of a bag, if there is one.
pub(crate) fn lose(bag: &mut Bag, index: u32) -> Ruling
    ensures lost { index < length bag.old → (result ≡ Silent) × (bag.new ≡ remove bag.old index) }
    ensures none { length bag.old ≤ index → (result ≡ Refused) × (bag.new ≡ bag.old) }
{
    let index = index as usize;
    if index >= bag.len() {
        return Ruling::Refused;
    }
    bag.remove(index);
    Ruling::Silent
}
