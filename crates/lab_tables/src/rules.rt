//! Policies and their rules.

ghost use Rattle.std.specs.Prelude.{◌≡◌, ◌++◌, ◌∷◌, [], IfOk, option_map};
ghost use Rattle.toml.specs.View.{table_view};
ghost use Rattle.lab_tables.specs.Routers.{length_kind as length_kind_lem, rule_keys as rule_keys_lem, rule_flaw as rule_flaw_lem};
ghost use Rattle.lab_tables.specs.Routers.{policy_keys as policy_keys_lem, rule_row as rule_row_lem};
ghost use Rattle.lab_tables.specs.Routers.{range_of as range_of_lem, rule_of as rule_of_lem, policy_flaw as policy_flaw_lem, policy_of as policy_of_lem};

use crate::input::PolicyInput;
use crate::numbers::{ANY_NUMBER, AS_NUMBER};
use crate::words::origin_at;
use bgp_types::{Name, NoMemory, Prefix};
use lab_keys::{
    Flaw, Key, Kind, TableAt, TableKind, TableReader, flag_or, has, keys_flaw, maybe_number,
    maybe_prefix, small_or, stray_flaw, tables_flaw, text_at, values_at,
};
use route_policy::{PrefixRange, Rule};
use std::alloc::Global;
use toml::Table;

/// Returns the kind of a rule's lengths. They are allowed only beside a prefix.
fn length_kind(ranged: bool) -> Kind
    ensures { result ≡ length_kind_lem ranged }
{
    if ranged {
        Kind::Number { low: 0, high: 32 }
    } else {
        Kind::Misplaced
    }
}

/// Returns the keys of a rule, given whether it has a prefix.
pub(crate) fn rule_keys(ranged: bool) -> [Key; 9]
    ensures { result ≡ rule_keys_lem ranged }
{
    [
        Key::optional("prefix", Kind::Prefix),
        Key::optional("ge", length_kind(ranged)),
        Key::optional("le", length_kind(ranged)),
        Key::optional("has_as", AS_NUMBER),
        Key::optional("origin", Kind::Origin),
        Key::optional("deny", Kind::Flag),
        Key::optional("pref", ANY_NUMBER),
        Key::optional("med", ANY_NUMBER),
        Key::optional("prepend", Kind::Number { low: 0, high: 8 }),
    ]
}

/// Returns the first flaw of the rule at these indices of router, policy and rule.
fn rule_flaw<'a>(i: usize, j: usize, k: usize, table: &'a Table) -> Option<Flaw<'a>>
    ensures { result ≡ rule_flaw_lem i j k (table_view table.now) }
{
    let at = TableAt::Rule(i, j, k);
    let keys = rule_keys(has("prefix", table));
    if let Some(flaw) = keys_flaw(at, &keys, table) {
        return Some(flaw);
    }
    stray_flaw(at, &keys, table)
}

/// Returns the range of a rule that has a prefix.
fn range_of(prefix: Prefix, table: &Table) -> PrefixRange
    ensures { result ≡ range_of_lem (table_view table.now) prefix }
{
    let longest = if has("ge", table) { 32 } else { prefix.len() };
    PrefixRange {
        prefix,
        ge: small_or(prefix.len(), "ge", table),
        le: small_or(longest, "le", table),
    }
}

/// Returns the rule that a table stands for.
fn rule_of(table: &Table) -> Rule
    ensures { result ≡ rule_of_lem (table_view table.now) }
{
    Rule {
        within: maybe_prefix("prefix", table).map(|prefix| range_of(prefix, table)),
        has_as: maybe_number("has_as", table),
        origin: origin_at("origin", table),
        deny: flag_or(false, "deny", table),
        pref: maybe_number("pref", table),
        med: maybe_number("med", table),
        prepend: small_or(0, "prepend", table),
    }
}

/// The array of rules of a policy, by the indices of its router and the policy.
#[derive(Drop)]
struct RuleTables {
    router: usize,
    policy: usize,
}

impl TableKind for RuleTables {
    ghost flaw_of = { λ k. rule_flaw_lem k.router k.policy };

    fn flaw<'a>(&self, i: usize, table: &'a Table) -> Option<Flaw<'a>> {
        rule_flaw(self.router, self.policy, i, table)
    }
}

/// Rule reader.
#[derive(Drop)]
struct RuleReader;

impl TableReader<Rule> for RuleReader {
    ghost value_of = { λ _ t. rule_of_lem t };

    fn value(&self, _alloc: Global, table: &Table) -> Result<Rule, NoMemory> {
        Ok(rule_of(table))
    }
}

/// Returns the row of a policy's rules.
fn rule_row() -> Key
    ensures { result ≡ rule_row_lem }
{
    Key::optional_array("rule", 0, 64, Kind::Table)
}

/// Returns the keys of a policy.
pub(crate) fn policy_keys() -> [Key; 2]
    ensures { result ≡ policy_keys_lem ++ rule_row_lem ∷ [] }
{
    [Key::required("name", Kind::Name), rule_row()]
}

/// Returns the first flaw of the policy at these indices of router and policy.
fn policy_flaw<'a>(i: usize, j: usize, table: &'a Table) -> Option<Flaw<'a>>
    ensures { result ≡ policy_flaw_lem i j (table_view table.now) }
{
    let at = TableAt::Policy(i, j);
    let rows = policy_keys();
    let keys = &rows[..];
    if let Some(flaw) = keys_flaw(at, &keys[..1], table) {
        return Some(flaw);
    }
    let rules = RuleTables {
        router: i,
        policy: j,
    };
    if let Some(flaw) = tables_flaw(&rules, at, &rule_row(), table) {
        return Some(flaw);
    }
    stray_flaw(at, keys, table)
}

/// Returns the policy that a table stands for.
fn policy_of(alloc: Global, table: &Table) -> Result<PolicyInput, NoMemory>
    ensures { IfOk result (λ policy. policy ≡ policy_of_lem (table_view table.now)) }
{
    Ok(PolicyInput {
        name: Name::from_text(alloc, text_at("name", table))?,
        rules: values_at(&RuleReader, alloc, "rule", table)?,
    })
}

/// The array of policies of a router, by its index.
#[derive(Drop)]
pub(crate) struct PolicyTables {
    pub router: usize,
}

impl TableKind for PolicyTables {
    ghost flaw_of = { λ k. policy_flaw_lem k.router };

    fn flaw<'a>(&self, i: usize, table: &'a Table) -> Option<Flaw<'a>> {
        policy_flaw(self.router, i, table)
    }
}

/// Policy reader.
#[derive(Drop)]
pub(crate) struct PolicyReader;

impl TableReader<PolicyInput> for PolicyReader {
    ghost value_of = { λ _ t. policy_of_lem t };

    fn value(&self, alloc: Global, table: &Table) -> Result<PolicyInput, NoMemory> {
        policy_of(alloc, table)
    }
}

ghost use Rattle.std.specs.Prelude.{codes};
