//! Best routes that are passed on unchanged, except that the home AS is put in front of the path and
//! the session's own address is the next hop. What is to be told of them is known without a copy of
//! their attributes.

ghost use Rattle.std.specs.Prelude.{◌≡◌, ◌≢◌, ◌↔◌, [], All, Some, None, IsTrue, IfSome, MatchBool, option_copied};
ghost use Rattle.rib_stages.specs.Values.{rib_of};
ghost use Rattle.route_policy.specs.Telling.{out_side_of_view};
ghost use Rattle.update_plan.specs.Passing.{IsPlain, IsShort, TellsPassedOn, passed_on};

use crate::path::is_prepended;
use bgp_types::{Attrs, PathPart, Prefix, SharedAttrs};
use rib_stages::{OutView, Rib};
use route_policy::is_kept_back;

/// The most parts in the path of plain attributes.
const PARTS: usize = 8;

/// The most ASes in a part of such a path.
const ASES: usize = 32;

/// Whether a part of a path has at most 32 ASes.
fn is_short(part: &PathPart) -> bool
    ensures { IsTrue result ↔ IsShort part.now }
{
    match part {
        PathPart::Set(ases) => ases.len() <= ASES,
        PathPart::Sequence(ases) => ases.len() <= ASES,
    }
}

/// Whether the parts of a path are short.
fn are_short(path: &[PathPart]) -> bool
    ensures { IsTrue result ↔ All IsShort path.now }
{
    path.iter().all(|part| is_short(part))
}

/// Whether no attribute is of an unknown type and the path is short, so that no UPDATE that tells them
/// of one prefix is too long.
fn is_plain(attrs: &Attrs) -> bool
    ensures { IsTrue result → IsPlain attrs.now }
{
    if !attrs.unknown.is_empty() || attrs.path.len() > PARTS {
        return false;
    }
    are_short(&attrs.path)
}

/// Returns the attributes of the best route if they are plain and passed on: there is no export policy,
/// the route didn't come from the session's own peering, and the remote's AS isn't in its path.
pub(crate) fn passing<'a>(rib: &'a Rib, view: &OutView<'_>, prefix: Prefix) -> Option<&'a Attrs>
    ensures { IfSome (option_copied result) (TellsPassedOn (rib_of rib.now) (out_side_of_view view.now) prefix) }
{
    if view.export.is_some() {
        return None;
    }
    let best = rib.best(prefix)?;
    let attrs: &Attrs = &best.route.attrs;
    if is_kept_back(view, best) || !is_plain(attrs) {
        return None;
    }
    Some(attrs)
}

/// Whether attributes have this next hop, no MED, and no attribute of an unknown type.
fn has_next_hop_alone(attrs: &Attrs, next_hop: u32) -> bool
    ensures { IsTrue result ↔ ((attrs.now.next_hop ≡ next_hop) × (attrs.now.med ≡ None) × (attrs.now.unknown ≡ [])) }
{
    attrs.next_hop == next_hop && attrs.med.is_none() && attrs.unknown.is_empty()
}

/// Whether attributes have the same ORIGIN, ATOMIC_AGGREGATE and AGGREGATOR.
#[tactic(auto, using(crate::proofs::Same::origins_equal, crate::proofs::Same::aggregators_equal))]
fn has_same_origin(attrs: &Attrs, other: &Attrs) -> bool
    ensures { IsTrue result ↔ ((attrs.now.origin ≡ other.now.origin) × (attrs.now.atomic ≡ other.now.atomic) × (attrs.now.aggregator ≡ other.now.aggregator)) }
{
    attrs.origin == other.origin
        && attrs.atomic == other.atomic
        && attrs.aggregator == other.aggregator
}

/// Whether attributes are these plain ones as they are passed on.
fn is_passed_on(told: &Attrs, attrs: &Attrs, home_as: u32, local_address: u32) -> bool
    ensures { IsTrue result ↔ (told.now ≡ passed_on home_as local_address attrs.now) }
{
    if !has_next_hop_alone(told, local_address) || !has_same_origin(told, attrs) {
        return false;
    }
    is_prepended(&told.path, home_as, &attrs.path)
}

/// Whether what was told is these plain attributes as they are passed on.
pub(crate) fn is_told_on(
    told: Option<&SharedAttrs>,
    attrs: &Attrs,
    home_as: u32,
    local_address: u32,
) -> bool
    ensures { MatchBool result (option_copied told.entry ≡ Some (passed_on home_as local_address attrs.now))
        (option_copied told.entry ≢ Some (passed_on home_as local_address attrs.now)) }
{
    match told {
        Some(told) => is_passed_on(told, attrs, home_as, local_address),
        None => false,
    }
}
