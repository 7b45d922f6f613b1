//! The routes that sessions bring in at this router.

ghost use Rattle.std.specs.Prelude.{◌≡◌, option_copied, IfOk, OnOk};
ghost use Rattle.route_policy.specs.Candidates.{SessionRoute, imported};
ghost use Rattle.rib_stages.specs.Values.{rib_of};
ghost use Rattle.rib_stages.specs.Steps.{SetsEntry};
ghost use Rattle.router_tables.specs.Entering.{entry_here, IsBrought, EntersAll};

use crate::named::policy_of;
use actor_configs::Policies;
use bgp_session::Session;
use bgp_types::{From, NoMemory, Prefix, Route, SharedAttrs, TryCopy, holds_as};
use rib_stages::{InEntry, Rib};
use route_policy::{PREFERENCE, Policy};

/// Returns the route that an import policy makes of attributes that were heard. If the path has the home AS it would be
/// a loop, so there is no route (RFC 4271, sections 9.1.1 and 9.1.2).
fn import(
    home_as: u32,
    policy: Option<&Policy>,
    remote_as: u32,
    prefix: Prefix,
    heard: Option<&SharedAttrs>,
) -> Result<Option<Route>, NoMemory>
    ensures { (session : SessionRoute) → session.import_rules ≡ option_copied policy.entry → session.remote_as ≡ remote_as
        → IfOk result (λ route. route ≡ imported home_as prefix session (option_copied heard.entry)) }
{
    let Some(attrs) = heard else {
        return Ok(None);
    };
    if holds_as(&attrs.path, home_as) {
        return Ok(None);
    }
    let route = Route {
        attrs: attrs.copy()?,
        pref: PREFERENCE,
    };
    match policy {
        Some(policy) => policy.apply(prefix, route, remote_as),
        None => Ok(Some(route)),
    }
}

/// Returns the entry that a session brings in for a prefix, by the router's policies.
fn brought(
    home_as: u32,
    policies: &Policies,
    session: &Session,
    prefix: Prefix,
) -> Result<InEntry, NoMemory>
    ensures { IfOk result (λ entry. IsBrought home_as policies.now session.now.session prefix entry) }
{
    let config = session.config();
    let policy = policy_of(policies, &config.import);
    let heard = session.heard().get(prefix);
    let route = import(home_as, policy, config.remote_as, prefix, heard)?;
    Ok(InEntry {
        prefix,
        route,
        identifier: session.remote_identifier().unwrap_or(0),
        address: config.remote_address,
    })
}

/// Sets a session's entry for a prefix to what the session brings in, or removes it.
fn enter_one(
    rib: &mut Rib,
    home_as: u32,
    policies: &Policies,
    session: &Session,
    prefix: Prefix,
) -> Result<(), NoMemory>
    ensures { OnOk result (SetsEntry (rib_of rib.old) session.now.session.config.peering.0 prefix
        (entry_here home_as policies.now session.now.session prefix) (rib_of rib.new)) }
{
    let entry = brought(home_as, policies, session, prefix)?;
    rib.set_in(From::Peering(session.config().peering), entry)
}

/// Sets a session's entry for each of the prefixes to what the session brings in, or removes it.
pub fn enter(
    rib: &mut Rib,
    home_as: u32,
    policies: &Policies,
    session: &Session,
    prefixes: &[Prefix],
) -> Result<(), NoMemory>
    ensures { OnOk result (EntersAll (rib_of rib.old) session.now.session.config.peering.0
        (entry_here home_as policies.now session.now.session) prefixes.now (rib_of rib.new)) }
{
    for prefix in prefixes {
        enter_one(rib, home_as, policies, session, *prefix)?;
    }
    Ok(())
}
