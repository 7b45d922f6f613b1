//! What a router advertises of its best route (RFC 4271, sections 5.1, 9.1.3 and 9.2).

ghost use Rattle.std.specs.Prelude.{◌≡◌, map, IfOk, None, Some, option_copied, if◌then◌else◌};
ghost use Rattle.route_policy.specs.Telling.{tell_in as tell_in_lem, tell_out as tell_out_lem, comes_from as comes_from_lem};
ghost use Rattle.route_policy.specs.Telling.{is_kept_back as is_kept_back_lem, out_side_of_view, exported};
ghost use Rattle.route_policy.specs.Telling.{told_attrs as told_attrs_lem, without_med as without_med_lem, made_partial};
ghost use Rattle.route_policy.specs.Telling.{is_too_long as is_too_long_lem};

use crate::best::Best;
use crate::path::prepend;
use crate::policy::Policy;
use bgp_types::{
    Attrs, From, Items, NoMemory, PeeringId, Prefix, RawAttrs, Route, SharedAttrs, TryCopy,
    holds_as, update_len,
};

/// What an advertisement on a session depends on.
#[derive(Drop)]
pub struct OutView<'a> {
    pub peering: PeeringId,
    /// The AS of the session's remote. No route whose path contains it is told.
    pub remote_as: u32,
    /// The session's own address, which is the next hop of the routes that it tells.
    pub local_address: u32,
    /// The export policy. Without one every route is told as it is.
    pub export: Option<&'a Policy>,
}

/// The greatest number of octets in a message.
const MESSAGE_LIMIT: usize = 4096;

/// Returns what another home router is told: a copy of the best route if it is the router's own or
/// external, else `None`.
pub fn tell_in(best: Option<&Best>) -> Result<Option<Route>, NoMemory>
    ensures { IfOk result (λ told. told ≡ tell_in_lem (option_copied best.entry)) }
{
    let Some(best) = best else {
        return Ok(None);
    };
    match best.from {
        From::Own | From::Peering(_) => Ok(Some(best.route.copy()?)),
        From::Router(_) => Ok(None),
    }
}

/// Whether a route comes from this peering.
fn comes_from(from: From, peering: PeeringId) -> bool
    ensures { result ≡ comes_from_lem from peering }
{
    match from {
        From::Peering(other) => other.0 == peering.0,
        From::Own | From::Router(_) => false,
    }
}

/// Whether a best route isn't told on a session, whatever the export policy makes of it: it came from
/// this peering, or the remote's AS is in its path, in a sequence or in a set. The remote would not
/// accept a route that went through its own AS (RFC 4271, section 9.1.2).
pub fn is_kept_back(view: &OutView<'_>, best: &Best) -> bool
    ensures { result ≡ is_kept_back_lem (out_side_of_view view.now) best.now }
{
    comes_from(best.from, view.peering) || holds_as(&best.route.attrs.path, view.remote_as)
}

/// Returns a route without its MED. Attributes that have none stay shared.
#[tactic(auto, using(crate::proofs::Tells::without_none))]
fn without_med(route: Route) -> Result<Route, NoMemory>
    ensures { IfOk result (λ plain. plain ≡ without_med_lem route) }
{
    if route.attrs.med.is_none() {
        return Ok(route);
    }
    let Route { attrs, pref } = route;
    let mut attrs = attrs.into_attrs()?;
    attrs.med = None;
    Ok(Route {
        attrs: SharedAttrs::new(attrs)?,
        pref,
    })
}

/// Returns what the export policy makes of a route. The policy gets the route without its MED, which
/// isn't passed on from another AS (RFC 4271, section 5.1.4).
fn export(
    home_as: u32,
    view: &OutView<'_>,
    prefix: Prefix,
    route: Route,
) -> Result<Option<Route>, NoMemory>
    ensures { IfOk result (λ answer. answer ≡ exported home_as (out_side_of_view view.now) prefix route) }
{
    let route = without_med(route)?;
    match view.export {
        Some(policy) => policy.apply(prefix, route, home_as),
        None => Ok(Some(route)),
    }
}

/// Returns attributes of unknown types as they are passed on, with Partial set (RFC 4271, section 5).
fn all_partial(unknown: RawAttrs) -> RawAttrs
    ensures { result ≡ map made_partial unknown }
{
    let mut unknown = unknown.into_vec();
    for raw in unknown.iter_mut() {
        raw.partial = true;
    }
    Items::from_vec(unknown)
}

/// Returns the attributes that are told for a route as the export policy left it.
fn told_attrs(home_as: u32, view: &OutView<'_>, route: Route) -> Result<Attrs, NoMemory>
    ensures { IfOk result (λ attrs. attrs ≡ told_attrs_lem home_as (out_side_of_view view.now) route) }
{
    let mut attrs = route.attrs.into_attrs()?;
    attrs.path = prepend(attrs.path, home_as)?;
    attrs.next_hop = view.local_address;
    attrs.unknown = all_partial(attrs.unknown);
    Ok(attrs)
}

/// Whether the UPDATE that tells this one prefix would have more than 4,096 octets, in one of the widths
/// of AS numbers.
fn is_too_long(prefix: Prefix, attrs: &Attrs) -> bool
    ensures { result ≡ is_too_long_lem prefix attrs.now }
{
    update_len(&[], Some(attrs), &[prefix], false) > MESSAGE_LIMIT
        || update_len(&[], Some(attrs), &[prefix], true) > MESSAGE_LIMIT
}

/// Returns the attributes if the UPDATE that tells this one prefix has at most 4,096 octets in both
/// widths of AS numbers, else `None`.
fn where_it_fits(prefix: Prefix, attrs: Attrs) -> Option<Attrs>
    ensures { result ≡ (if is_too_long_lem prefix attrs then None else Some attrs) }
{
    if is_too_long(prefix, &attrs) {
        return None;
    }
    Some(attrs)
}

/// Returns what is told of a prefix on a session, made from one copy of the best route. It is nothing
/// if there is no best route, if that came from this peering or its path contains the remote's AS, if
/// the export policy refuses it, or if its UPDATE would be longer than 4,096 octets. The path is
/// checked before the export policy, and nothing is copied of a route that is kept back for it.
pub fn tell_out(
    home_as: u32,
    view: &OutView<'_>,
    prefix: Prefix,
    best: Option<&Best>,
) -> Result<Option<Attrs>, NoMemory>
    ensures { IfOk result (λ told. told ≡ tell_out_lem home_as (out_side_of_view view.now) prefix (option_copied best.entry)) }
{
    let Some(best) = best else {
        return Ok(None);
    };
    if is_kept_back(view, best) {
        return Ok(None);
    }
    match export(home_as, view, prefix, best.route.copy()?)? {
        Some(route) => Ok(where_it_fits(prefix, told_attrs(home_as, view, route)?)),
        None => Ok(None),
    }
}
