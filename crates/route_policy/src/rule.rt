//! Rules of policies.

ghost use Rattle.std.specs.Prelude.{◌≡◌};
ghost use Rattle.route_policy.specs.Rules.{is_in_range as is_in_range_lem, is_in_some_range};
ghost use Rattle.route_policy.specs.Rules.{holds_as as holds_as_lem, holds_some_as, has_some_origin, matches as matches_lem};

use bgp_types::{AsPath, Items, NoMemory, Origin, Prefix, Route, TryCopy, holds_as};

/// The prefixes that a prefix covers, with a length from `ge` to `le`.
#[derive(Clone, Copy, Debug, PartialEq, Eq, Hash)]
pub struct PrefixRange {
    pub prefix: Prefix,
    pub ge: u8,
    pub le: u8,
}

/// A rule of a policy. The first three parts say which routes it matches: a part that is absent matches
/// every route. The others say what becomes of these routes: with `deny` they are refused, else the
/// preference and the MED are set where the rule has them, and an AS is put in front of the path
/// `prepend` times.
#[derive(Clone, Copy, Debug, PartialEq, Eq, Hash)]
pub struct Rule {
    pub within: Option<PrefixRange>,
    pub has_as: Option<u32>,
    pub origin: Option<Origin>,
    pub deny: bool,
    pub pref: Option<u32>,
    pub med: Option<u32>,
    pub prepend: u8,
}

/// The rules of a policy, in the order in which they are tried.
pub type Rules = Items<Rule>;

impl TryCopy for Rule {
    fn copy(&self) -> Result<Rule, NoMemory> {
        Ok(*self)
    }
}

/// Whether a prefix is in a range.
fn is_in_range(range: &PrefixRange, prefix: Prefix) -> bool
    ensures { result ≡ is_in_range_lem range.now prefix }
{
    let len = prefix.len();
    range.prefix.covers(&prefix) && range.ge <= len && len <= range.le
}

/// Whether a prefix is in a rule's range, if it has one.
fn is_within(range: &Option<PrefixRange>, prefix: Prefix) -> bool
    ensures { result ≡ is_in_some_range range.now prefix }
{
    match range {
        Some(range) => is_in_range(range, prefix),
        None => true,
    }
}

/// Whether a path contains a rule's AS, if it has one.
fn has_as(as_number: Option<u32>, path: &AsPath) -> bool
    ensures { result ≡ holds_some_as as_number path.now }
{
    match as_number {
        Some(as_number) => holds_as(path, as_number),
        None => true,
    }
}

/// Whether an ORIGIN is a rule's, if it has one.
fn has_origin(wanted: Option<Origin>, origin: Origin) -> bool
    ensures { result ≡ has_some_origin wanted origin }
{
    match wanted {
        Some(wanted) => wanted == origin,
        None => true,
    }
}

/// Whether all parts of a rule match.
pub(crate) fn matches(rule: &Rule, prefix: Prefix, route: &Route) -> bool
    ensures { result ≡ matches_lem rule.now prefix route.now }
{
    is_within(&rule.within, prefix)
        && has_as(rule.has_as, &route.attrs.path)
        && has_origin(rule.origin, route.attrs.origin)
}
