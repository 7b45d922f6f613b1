//! The nine rules of the decision process, and at which of them a route goes.

ghost use Rattle.std.specs.Prelude.{◌≡◌, IfOk};
ghost use Rattle.std.specs.List.{list_any};
ghost use Rattle.decision_core.specs.Choice.{keep as keep_lem};
ghost use Rattle.why_view.specs.Rules.{better_by, goes_at as goes_at_lem, in_order, rule_name, rule_number};

use bgp_types::{Items, NoMemory, Rank};
use std::alloc::Global;

/// A rule of the decision process: an own network first, then the degree of preference (RFC 4271, section 9.1.2), then the seven
/// tie-breaks of section 9.1.2.2.
#[derive(Clone, Copy, Debug, PartialEq, Eq)]
pub enum DecisionRule {
    OwnNetwork,
    Preference,
    PathLength,
    LowestOrigin,
    Med,
    External,
    InteriorCost,
    Identifier,
    PeerAddress,
}

/// The rules in the order in which they are applied.
const IN_ORDER: [DecisionRule; 9] = [
    DecisionRule::OwnNetwork,
    DecisionRule::Preference,
    DecisionRule::PathLength,
    DecisionRule::LowestOrigin,
    DecisionRule::Med,
    DecisionRule::External,
    DecisionRule::InteriorCost,
    DecisionRule::Identifier,
    DecisionRule::PeerAddress,
];

impl DecisionRule {
    /// Whether the first rank is better by this rule.
    fn is_better(self, a: &Rank, b: &Rank) -> bool
        ensures { result ≡ better_by self a.now b.now }
    {
        match self {
            DecisionRule::OwnNetwork => a.own && !b.own,
            DecisionRule::Preference => a.pref > b.pref,
            DecisionRule::PathLength => a.path_len < b.path_len,
            DecisionRule::LowestOrigin => a.origin < b.origin,
            DecisionRule::Med => a.neighbour == b.neighbour && a.med < b.med,
            DecisionRule::External => a.external && !b.external,
            DecisionRule::InteriorCost => a.cost < b.cost,
            DecisionRule::Identifier => a.identifier < b.identifier,
            DecisionRule::PeerAddress => a.address < b.address,
        }
    }

    /// Its number in the order of the rules, from 1.
    pub fn number(self) -> u8
        ensures { result ≡ rule_number self }
    {
        match self {
            DecisionRule::OwnNetwork => 1,
            DecisionRule::Preference => 2,
            DecisionRule::PathLength => 3,
            DecisionRule::LowestOrigin => 4,
            DecisionRule::Med => 5,
            DecisionRule::External => 6,
            DecisionRule::InteriorCost => 7,
            DecisionRule::Identifier => 8,
            DecisionRule::PeerAddress => 9,
        }
    }

    /// What it compares, in words.
    pub fn name(self) -> &'static str
        ensures { result.now ≡ rule_name self }
    {
        match self {
            DecisionRule::OwnNetwork => "own network",
            DecisionRule::Preference => "preference",
            DecisionRule::PathLength => "path length",
            DecisionRule::LowestOrigin => "origin",
            DecisionRule::Med => "med",
            DecisionRule::External => "external",
            DecisionRule::InteriorCost => "cost",
            DecisionRule::Identifier => "identifier",
            DecisionRule::PeerAddress => "address",
        }
    }
}

/// Whether some rank that is left is better than this one by a rule.
fn is_beaten(rule: DecisionRule, left: &[Rank], rank: &Rank) -> bool
    ensures { result ≡ list_any (λ other. better_by rule other rank.now) left.now }
{
    left.iter().any(|other| rule.is_better(other, rank))
}

/// The ranks that a rule leaves of those that are left.
#[tactic(auto, unfolding(decision_core::specs::Choice::keep))]
fn keep(alloc: Global, rule: DecisionRule, left: &[Rank]) -> Result<Items<Rank>, NoMemory>
    ensures { IfOk result (λ kept. kept ≡ keep_lem (better_by rule) left.now) }
{
    let mut kept = Items::new(alloc);
    for rank in left {
        if !is_beaten(rule, left, rank) {
            kept.push(*rank)?;
        }
    }
    Ok(kept)
}

/// The first of these rules at which a rank goes, where the ranks that are left are those of `ranks`.
fn first_at(
    alloc: Global,
    rules: &[DecisionRule],
    ranks: &[Rank],
    rank: &Rank,
) -> Result<Option<DecisionRule>, NoMemory>
    ensures { IfOk result (λ rule. rule ≡ goes_at_lem rules.now ranks.now rank.now) }
{
    let mut left = Items::from_slice(alloc, ranks)?;
    for rule in rules {
        if is_beaten(*rule, &left, rank) {
            return Ok(Some(*rule));
        }
        left = keep(alloc, *rule, &left)?;
    }
    Ok(None)
}

/// The rule at which a rank goes among others, if the nine rules don't leave it.
pub fn goes_at(alloc: Global, ranks: &[Rank], rank: &Rank) -> Result<Option<DecisionRule>, NoMemory>
    ensures { IfOk result (λ rule. rule ≡ goes_at_lem in_order ranks.now rank.now) }
{
    first_at(alloc, &IN_ORDER, ranks, rank)
}
