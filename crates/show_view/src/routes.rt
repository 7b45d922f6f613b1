//! The lines of routes: a router's best ones; and those that a session heard, before and after its import policy.

ghost use Rattle.std.specs.Prelude.{◌≡◌, ◌++◌, ℕ, List, Some, true, codes, IfOk, OnOk, string_bytes};
ghost use Rattle.std.specs.List.{flat_map};
ghost use Rattle.bgp_story.specs.declared.line.Line.{Line};
ghost use Rattle.route_policy.specs.Candidates.{SessionRoute, imported};
ghost use Rattle.lab_tables.specs.declared.input.RouterInput.{RouterInput};
ghost use Rattle.message_words.specs.Updates.{attrs_words};
ghost use Rattle.why_view.specs.Sources.{import_rules};
ghost use Rattle.show_view.specs.Routes.{best_line, denying_rule as denying_rule_lem, import_line, kept_out_line};
ghost use Rattle.show_view.specs.Routes.{let_in_line, route_line, route_start, route_words, rule_words};

use bgp_types::{Name, NoMemory, Prefix, Route, SharedAttrs, TryCopy};
use lab_report::{BestEntry, push_from};
use lab_tables::{LabInput, PeeringInput};
use message_words::push_attrs;
use route_policy::{PREFERENCE, Policy};
use std::alloc::Global;
use std::fmt::Write;
use why_view::{first_match, is_loop, name_or_dash, push_number};

/// A prefix, and the attributes of its route.
pub type AttrsEntry = (Prefix, SharedAttrs);

/// Adds what is said of a route, the name of its router or peering, and its prefix.
pub(crate) fn push_start(
    text: &mut String,
    what: &str,
    name: &str,
    prefix: Prefix,
) -> Result<(), NoMemory>
    ensures { OnOk result (string_bytes text.new ≡ string_bytes text.old ++ route_start what.now name.now prefix) }
{
    text.push_str(what)?;
    text.push_str(" ")?;
    text.push_str(name)?;
    write!(text, " {prefix}")?;
    Ok(())
}

/// Adds a route's preference and all its attributes.
fn push_route(text: &mut String, alloc: Global, route: &Route) -> Result<(), NoMemory>
    ensures { OnOk result (string_bytes text.new ≡ string_bytes text.old ++ route_words route.now) }
{
    let pref = route.pref;
    write!(text, " pref {pref}")?;
    push_attrs(text, alloc, true, &route.attrs)
}

/// Adds the number of a rule and the name of its policy.
pub(crate) fn push_rule(
    text: &mut String,
    index: Option<usize>,
    policy: &Option<Name>,
) -> Result<(), NoMemory>
    ensures { OnOk result (string_bytes text.new ≡ string_bytes text.old ++ rule_words index policy.now) }
{
    text.push_str(" rule ")?;
    push_number(text, index)?;
    text.push_str(" of ")?;
    text.push_str(name_or_dash(policy))?;
    Ok(())
}

/// Adds the line of a best route of the router of this name.
fn push_best(
    text: &mut String,
    alloc: Global,
    input: &LabInput,
    name: &str,
    best: &BestEntry,
) -> Result<(), NoMemory>
    ensures { OnOk result (string_bytes text.new ≡ string_bytes text.old ++ best_line input.now name.now best.now) }
{
    push_start(text, "best", name, best.prefix)?;
    text.push_str(" ")?;
    push_from(text, input, best.from)?;
    push_route(text, alloc, &best.route)?;
    text.push_str("\n")?;
    Ok(())
}

/// Adds the lines of the best routes of the router of this name.
pub(crate) fn push_bests(
    text: &mut String,
    alloc: Global,
    input: &LabInput,
    name: &str,
    table: &[BestEntry],
) -> Result<(), NoMemory>
    ensures { OnOk result (string_bytes text.new ≡ string_bytes text.old ++ flat_map (best_line input.now name.now) table.now) }
{
    for best in table {
        push_best(text, alloc, input, name, best)?;
    }
    Ok(())
}

/// Adds a line of a route of which only attributes are said.
pub(crate) fn push_attrs_line(
    text: &mut String,
    alloc: Global,
    what: &str,
    name: &str,
    entry: &AttrsEntry,
) -> Result<(), NoMemory>
    ensures { OnOk result (string_bytes text.new ≡ string_bytes text.old ++ route_line what.now name.now entry.now.0 (attrs_words true entry.now.1)) }
{
    push_start(text, what, name, entry.0)?;
    push_attrs(text, alloc, true, &entry.1)?;
    text.push_str("\n")?;
    Ok(())
}

/// Returns the route that a session gives of what it heard. A path with the home AS would be a loop and gives none.
pub fn let_in(
    input: &LabInput,
    remote_as: u32,
    policy: &Option<Policy>,
    prefix: Prefix,
    heard: &SharedAttrs,
) -> Result<Option<Route>, NoMemory>
    ensures { (session : SessionRoute) → session.remote_as ≡ remote_as → session.import_rules ≡ policy.now
        → IfOk result (λ route. route ≡ imported input.now.home_as prefix session (Some heard.now)) }
{
    if is_loop(input, heard) {
        return Ok(None);
    }
    let route = Route {
        attrs: heard.copy()?,
        pref: PREFERENCE,
    };
    match policy {
        Some(policy) => policy.apply(prefix, route, remote_as),
        None => Ok(Some(route)),
    }
}

/// Returns the index of the first rule of an import policy that matches what was heard.
pub fn denying_rule(policy: &Option<Policy>, entry: &AttrsEntry) -> Result<Option<usize>, NoMemory>
    ensures { IfOk result (λ index. index ≡ denying_rule_lem policy.now entry.now) }
{
    match policy {
        Some(policy) => first_match(policy, entry.0, &entry.1),
        None => Ok(None),
    }
}

/// Adds the line of a route whose path has the home AS.
fn push_looped(text: &mut String, name: &str, prefix: Prefix) -> Result<(), NoMemory>
    ensures { OnOk result (string_bytes text.new ≡ string_bytes text.old ++ route_line (codes "looped") name.now prefix (codes " own AS in the path")) }
{
    push_start(text, "looped", name, prefix)?;
    text.push_str(" own AS in the path\n")?;
    Ok(())
}

/// Adds the line of a route that the import policy denied.
fn push_denied(
    text: &mut String,
    peering: &PeeringInput,
    policy: &Option<Policy>,
    entry: &AttrsEntry,
) -> Result<(), NoMemory>
    ensures { OnOk result (string_bytes text.new ≡ string_bytes text.old
        ++ route_line (codes "denied") peering.now.name entry.now.0 (rule_words (denying_rule_lem policy.now entry.now) peering.now.«import»)) }
{
    let index = denying_rule(policy, entry)?;
    push_start(text, "denied", peering.name.as_str(), entry.0)?;
    push_rule(text, index, &peering.import)?;
    text.push_str("\n")?;
    Ok(())
}

/// Adds the line of a route that was kept out.
fn push_kept_out(
    text: &mut String,
    input: &LabInput,
    peering: &PeeringInput,
    policy: &Option<Policy>,
    entry: &AttrsEntry,
) -> Result<(), NoMemory>
    ensures { (router : RouterInput) → policy.now ≡ import_rules router peering.now.«import»
        → OnOk result (string_bytes text.new ≡ string_bytes text.old ++ kept_out_line input.now router peering.now entry.now) }
{
    if is_loop(input, &entry.1) {
        return push_looped(text, peering.name.as_str(), entry.0);
    }
    push_denied(text, peering, policy, entry)
}

/// Adds the line of what was let in of a route, or why nothing was.
fn push_let_in(
    text: &mut String,
    alloc: Global,
    input: &LabInput,
    peering: &PeeringInput,
    policy: &Option<Policy>,
    entry: &AttrsEntry,
    route: &Option<Route>,
) -> Result<(), NoMemory>
    ensures { (router : RouterInput) → policy.now ≡ import_rules router peering.now.«import»
        → OnOk result (string_bytes text.new ≡ string_bytes text.old ++ let_in_line input.now router peering.now entry.now route.now) }
{
    let Some(route) = route else {
        return push_kept_out(text, input, peering, policy, entry);
    };
    push_start(text, "accepted", peering.name.as_str(), entry.0)?;
    push_route(text, alloc, route)?;
    text.push_str("\n")?;
    Ok(())
}

/// Adds what the import policy of a session makes of a route that it heard.
pub(crate) fn push_import(
    text: &mut String,
    alloc: Global,
    input: &LabInput,
    peering: &PeeringInput,
    policy: &Option<Policy>,
    entry: &AttrsEntry,
) -> Result<(), NoMemory>
    ensures { (router : ℕ × RouterInput) (number : ℕ) (lines : List Line) → policy.now ≡ import_rules router.1 peering.now.«import»
        → OnOk result (string_bytes text.new ≡ string_bytes text.old ++ import_line input.now (Some router) (number, peering.now) lines entry.now) }
{
    let route = let_in(input, peering.remote_as, policy, entry.0, &entry.1)?;
    push_let_in(text, alloc, input, peering, policy, entry, &route)
}
