//! What isn't told on a session, and why.

ghost use Rattle.std.specs.Prelude.{◌≡◌, ◌++◌, false, is_none, option_copied, codes, IfOk, OnOk, string_bytes};
ghost use Rattle.std.specs.List.{flat_map};
ghost use Rattle.lab_tables.specs.declared.input.RouterInput.{RouterInput};
ghost use Rattle.route_policy.specs.Rules.{holds_as as holds_as_lem};
ghost use Rattle.route_policy.specs.Telling.{comes_from as comes_from_lem, exported, is_kept_back, out_side_of_view};
ghost use Rattle.route_policy.specs.Telling.{without_med as without_med_lem};
ghost use Rattle.show_view.specs.Routes.{route_line};
ghost use Rattle.show_view.specs.Untold.{best_of as best_of_lem, if_exported as if_exported_lem, matching_rule as matching_rule_lem, out_side};
ghost use Rattle.show_view.specs.Untold.{untold_line, untold_words, why_untold as why_untold_lem};

use crate::routes::{push_rule, push_start};
use adj_rib::AdjRib;
use bgp_types::{
    AsPath, Attrs, From, NoMemory, PeeringId, Prefix, Route, SharedAttrs, TryCopy, holds_as,
};
use lab_report::BestEntry;
use lab_tables::{LabInput, PeeringInput};
use route_policy::{Best, OutView, Policy, tell_out};
use std::fmt::Write;

/// Why a router's best route isn't told on an established session that it holds.
#[derive(Clone, Copy, Debug, PartialEq, Eq)]
pub enum Untold {
    /// It came from this peering.
    CameFromIt,
    /// Its path has the AS of the remote, which would not accept it (RFC 4271, section 9.1.2).
    ThroughItsAs,
    /// The export policy denies it, by its rule of this index.
    Denied(Option<usize>),
    /// The UPDATE that told it would have more than 4,096 octets.
    TooLong,
    /// It is still to be told.
    NotYet,
}

/// Returns a best route as the router has it.
pub fn best_of(entry: &BestEntry) -> Result<Best, NoMemory>
    ensures { IfOk result (λ best. best ≡ best_of_lem entry.now) }
{
    Ok(Best {
        from: entry.from,
        route: entry.route.copy()?,
    })
}

/// Whether an AS is in a path.
fn goes_through(path: &AsPath, as_number: u32) -> bool
    ensures { result ≡ holds_as_lem path.now as_number }
{
    holds_as(path, as_number)
}

/// Whether a route comes from this peering.
fn comes_from(from: From, peering: PeeringId) -> bool
    ensures { result ≡ comes_from_lem from peering }
{
    match from {
        From::Peering(other) => other.0 == peering.0,
        From::Own | From::Router(_) => false,
    }
}

/// Returns the index of the first rule of an export policy that matches a route.
fn matching_rule(policy: Option<&Policy>, prefix: Prefix, route: &Route) -> Option<usize>
    ensures { result ≡ matching_rule_lem (option_copied policy.entry) prefix route.now }
{
    match policy {
        Some(policy) => policy.matching(prefix, route),
        None => None,
    }
}

/// Returns a route without its MED, which isn't passed on from another AS (RFC 4271, section 5.1.4).
fn without_med(route: &Route) -> Result<Route, NoMemory>
    ensures { IfOk result (λ plain. plain ≡ without_med_lem route.now) }
{
    let attrs: &Attrs = &route.attrs;
    let mut attrs = attrs.copy()?;
    attrs.med = None;
    Ok(Route {
        attrs: SharedAttrs::new(attrs)?,
        pref: route.pref,
    })
}

/// Whether the export policy denies a route. It gets the route without its MED.
fn is_denied(
    home_as: u32,
    view: &OutView<'_>,
    prefix: Prefix,
    route: &Route,
) -> Result<bool, NoMemory>
    ensures { IfOk result (λ denied. denied ≡ is_none (exported home_as (out_side_of_view view.now) prefix route.now)) }
{
    let Some(policy) = view.export else {
        return Ok(false);
    };
    Ok(
        policy
            .apply(prefix, without_med(route)?, home_as)?
            .is_none(),
    )
}

/// Returns why a best route isn't told that neither came from the remote nor went through its AS.
fn if_exported(
    home_as: u32,
    view: &OutView<'_>,
    prefix: Prefix,
    best: &Best,
) -> Result<Untold, NoMemory>
    requires { is_kept_back (out_side_of_view view.now) best.now ≡ false }
    ensures { IfOk result (λ why. why ≡ if_exported_lem home_as (out_side_of_view view.now) prefix best.now.route
        (exported home_as (out_side_of_view view.now) prefix best.now.route)) }
{
    if is_denied(home_as, view, prefix, &best.route)? {
        let rule = matching_rule(view.export, prefix, &best.route);
        return Ok(Untold::Denied(rule));
    }
    match tell_out(home_as, view, prefix, Some(best))? {
        Some(_) => Ok(Untold::NotYet),
        None => Ok(Untold::TooLong),
    }
}

/// Returns why a best route isn't told on a session.
pub fn why_untold(
    home_as: u32,
    view: &OutView<'_>,
    prefix: Prefix,
    best: &Best,
) -> Result<Untold, NoMemory>
    ensures { IfOk result (λ why. why ≡ why_untold_lem home_as (out_side_of_view view.now) prefix best.now) }
{
    if comes_from(best.from, view.peering) {
        return Ok(Untold::CameFromIt);
    }
    if goes_through(&best.route.attrs.path, view.remote_as) {
        return Ok(Untold::ThroughItsAs);
    }
    if_exported(home_as, view, prefix, best)
}

/// Adds why a route isn't told.
fn push_reason(text: &mut String, peering: &PeeringInput, why: Untold) -> Result<(), NoMemory>
    ensures { OnOk result (string_bytes text.new ≡ string_bytes text.old ++ untold_words peering.now why) }
{
    match why {
        Untold::CameFromIt => text.push_str(" came from it")?,
        Untold::ThroughItsAs => {
            let remote_as = peering.remote_as;
            write!(text, " its AS {remote_as} in the path")?;
        }
        Untold::Denied(index) => {
            text.push_str(" denied by")?;
            push_rule(text, index, &peering.export)?;
        }
        Untold::TooLong => text.push_str(" longer than a message")?,
        Untold::NotYet => text.push_str(" not yet")?,
    }
    Ok(())
}

/// Adds the line of a best route that isn't told.
fn push_untold(
    text: &mut String,
    home_as: u32,
    view: &OutView<'_>,
    peering: &PeeringInput,
    entry: &BestEntry,
) -> Result<(), NoMemory>
    ensures { OnOk result (string_bytes text.new ≡ string_bytes text.old
        ++ route_line (codes "untold") peering.now.name entry.now.prefix
        (untold_words peering.now (why_untold_lem home_as (out_side_of_view view.now) entry.now.prefix (best_of_lem entry.now)))) }
{
    let best = best_of(entry)?;
    let why = why_untold(home_as, view, entry.prefix, &best)?;
    push_start(text, "untold", peering.name.as_str(), entry.prefix)?;
    push_reason(text, peering, why)?;
    text.push_str("\n")?;
    Ok(())
}

/// Adds the line of a best route, unless something is told of its prefix.
fn push_unless_told(
    text: &mut String,
    input: &LabInput,
    view: &OutView<'_>,
    peering: &PeeringInput,
    told: &AdjRib,
    entry: &BestEntry,
) -> Result<(), NoMemory>
    ensures { (router : RouterInput) → out_side_of_view view.now ≡ out_side router (view.now.peering.0, peering.now)
        → OnOk result (string_bytes text.new
        ≡ string_bytes text.old ++ untold_line input.now router (view.now.peering.0, peering.now) told.now entry.now) }
{
    if told.get(entry.prefix).is_some() {
        return Ok(());
    }
    push_untold(text, input.home_as, view, peering, entry)
}

/// Adds the lines of a router's best routes that aren't told on a session.
pub(crate) fn push_all_untold(
    text: &mut String,
    input: &LabInput,
    view: &OutView<'_>,
    peering: &PeeringInput,
    told: &AdjRib,
    table: &[BestEntry],
) -> Result<(), NoMemory>
    ensures { (router : RouterInput) → out_side_of_view view.now ≡ out_side router (view.now.peering.0, peering.now)
        → OnOk result (string_bytes text.new
        ≡ string_bytes text.old ++ flat_map (untold_line input.now router (view.now.peering.0, peering.now) told.now) table.now) }
{
    for entry in table {
        push_unless_told(text, input, view, peering, told, entry)?;
    }
    Ok(())
}
