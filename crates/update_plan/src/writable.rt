//! Whether attributes can be written.

ghost use Rattle.std.specs.Prelude.{◌≡◌, ◌≤◌, ◌<◌, ◌^◌, ◌↔◌, length, All, IsTrue, IfSome, MatchBool, not};
ghost use Rattle.bgp_types.specs.Values.{is_other as is_other_lem, is_no_host as is_no_host_lem, other_kind};
ghost use Rattle.bgp_types.specs.Rising.{IsRising};
ghost use Rattle.bgp_types.specs.Writable.{IsPart, IsOther, IsAggregator, IsWritableAttrs};

use bgp_types::{Aggregator, Attrs, PathPart, RawAttr, is_no_host};

/// Whether a part of a path has 1 to 255 ASes.
fn is_count(ases: &[u32]) -> bool
    ensures count { IsTrue result ↔ ((0 < length ases.now) × (length ases.now < 256)) }
    ensures fit { All (λ a. a < 2 ^ 32) ases.now }
{
    let count = ases.len();
    0 < count && count < 256
}

/// Whether a part of a path can be written.
fn is_part(part: &PathPart) -> bool
    ensures { MatchBool result (IsPart part.now) (¬ IsPart part.now) }
{
    match part {
        PathPart::Set(ases) => is_count(ases),
        PathPart::Sequence(ases) => is_count(ases),
    }
}

/// Whether all parts of a path can be written.
fn are_parts(path: &[PathPart]) -> bool
    ensures { MatchBool result (All IsPart path.now) (¬ All IsPart path.now) }
{
    for part in path {
        if !is_part(part) {
            return false;
        }
    }
    true
}

/// Whether a type is unknown to this codec.
fn is_other(kind: u8) -> bool
    ensures { result ≡ is_other_lem kind }
{
    kind == 0 || 7 < kind && kind < 17 || 18 < kind
}

/// Whether attributes are of unknown types, in ascending order of type.
fn are_others(others: &[RawAttr]) -> bool
    ensures { MatchBool result (All IsOther others.now × IsRising other_kind others.now) (¬ (All IsOther others.now × IsRising other_kind others.now)) }
{
    let mut least = 0u32;
    for other in others {
        let kind = u32::from(other.kind);
        if !is_other(other.kind) || kind < least {
            return false;
        }
        least = kind + 1;
    }
    true
}

/// Whether the attributes that aren't lists can be written: each MED and each aggregator can, and a next
/// hop that is the address of a host.
fn are_scalars(next_hop: u32, med: Option<u32>, aggregator: Option<Aggregator>) -> bool
    ensures next_hop { result ≡ not (is_no_host_lem next_hop) }
    ensures med { IfSome med (λ n. n < 2 ^ 32) }
    ensures aggregator { IfSome aggregator IsAggregator }
{
    !is_no_host(next_hop)
}

/// Whether attributes can be written.
pub(crate) fn are_writable(attrs: &Attrs) -> bool
    ensures { MatchBool result (IsWritableAttrs attrs.now) (¬ IsWritableAttrs attrs.now) }
{
    are_scalars(attrs.next_hop, attrs.med, attrs.aggregator)
        && are_parts(&attrs.path)
        && are_others(&attrs.unknown)
}
