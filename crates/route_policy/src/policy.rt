//! Policies.

ghost use Rattle.std.specs.Prelude.{◌≡◌, IfOk, position};
ghost use Rattle.route_policy.specs.Policies.{changed as changed_lem, decision};

use crate::path::prepend_times;
use crate::rule::{Rule, Rules, matches};
use bgp_types::{NoMemory, Prefix, Route, SharedAttrs, TryCopy};
use std::marker::Model;

/// A list of rules. The first rule that matches a route decides what becomes of it.
#[derive(Debug, Drop)]
pub struct Policy {
    rules: Rules,
}

impl Model for Policy {
    ghost use Rattle.std.specs.Prelude.{List};
    ghost use Rattle.route_policy.specs.declared.rule.Rule.{Rule};

    ghost Value = { List Rule };

    ghost view = { λ policy. policy.rules };
}

impl Policy {
    ghost use Rattle.route_policy.specs.Rules.{matches as matches_lem};
    ghost use Rattle.route_policy.specs.Policies.{policy as policy_lem};

    /// Returns the policy of these rules, which are tried in their order. It allocates nothing.
    pub fn new(rules: Rules) -> Policy
        ensures { result ≡ rules }
    {
        Policy { rules }
    }

    /// Returns the index, counted from 0, of the first rule all of whose parts match. It allocates
    /// nothing.
    pub fn matching(&self, prefix: Prefix, route: &Route) -> Option<usize>
        ensures { result ≡ position (λ rule. matches_lem rule prefix route.now) self.now }
    {
        self.rules
            .iter()
            .position(|rule| matches(rule, prefix, route))
    }

    /// Applies the policy to a route. The first rule that matches decides: it refuses the route, which
    /// returns `None`, or it sets the preference and the MED that it has, and puts `as_number` in front
    /// of the path as often as it says. If none matches, the route stays as it is. If memory runs out,
    /// the route is lost.
    pub fn apply(
        &self,
        prefix: Prefix,
        route: Route,
        as_number: u32,
    ) -> Result<Option<Route>, NoMemory>
        ensures { IfOk result (λ answer. answer ≡ policy_lem self.now prefix as_number route) }
    {
        match self.matching(prefix, &route) {
            Some(index) => decide(&self.rules[index], route, as_number),
            None => Ok(Some(route)),
        }
    }
}

/// Returns a route as a rule changes it. Its attributes stay shared if the rule has no MED and puts no AS in front of the
/// path.
#[tactic(auto, using(crate::proofs::PolicyLemmas::unchanged))]
fn changed(rule: &Rule, route: Route, as_number: u32) -> Result<Route, NoMemory>
    ensures { IfOk result (λ answer. answer ≡ changed_lem rule.now as_number route) }
{
    let Route { attrs, pref } = route;
    let pref = rule.pref.unwrap_or(pref);
    if rule.prepend == 0 && rule.med.is_none() {
        return Ok(Route { attrs, pref });
    }
    let mut attrs = attrs.into_attrs()?;
    attrs.path = prepend_times(attrs.path, as_number, rule.prepend)?;
    attrs.med = rule.med.or(attrs.med);
    Ok(Route {
        attrs: SharedAttrs::new(attrs)?,
        pref,
    })
}

/// Returns what a rule that matches makes of a route.
fn decide(rule: &Rule, route: Route, as_number: u32) -> Result<Option<Route>, NoMemory>
    ensures { IfOk result (λ answer. answer ≡ decision rule.now as_number route) }
{
    if rule.deny {
        return Ok(None);
    }
    Ok(Some(changed(rule, route, as_number)?))
}

impl TryCopy for Policy {
    fn copy(&self) -> Result<Policy, NoMemory> {
        Ok(Policy {
            rules: self.rules.copy()?,
        })
    }
}
