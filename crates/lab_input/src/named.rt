//! The names of tables.

ghost use Rattle.std.specs.Prelude.{◌≡◌, [], IfOk, map, codes, option_copied};
ghost use Rattle.std.specs.List.{find, list_any};
ghost use Rattle.std.specs.Option.{option_map_or};
ghost use Rattle.toml.specs.View.{table_view};
ghost use Rattle.lab_keys.specs.Kinds.{first_of};
ghost use Rattle.lab_keys.specs.Values.{text_at as text_at_lem, maybe_text as maybe_text_lem};
ghost use Rattle.bgp_types.specs.Texts.{address_text};
ghost use Rattle.lab_tables.specs.Peerings.{cost_of};
ghost use Rattle.lab_input.specs.Names.{each_after, cost_named as cost_named_lem, remote_address_of, policies_at as policies_at_lem, peering_fault};
ghost use Rattle.lab_input.specs.Names.{peering_named as peering_named_lem, worded_named as worded_named_lem, step_named as step_named_lem};

use crate::bad::BadInput;
use crate::names::{repeated_address, unknown};
use crate::told::{first, repeated_if};
use bgp_types::{Name, NoMemory, RouterId};
use lab_keys::{StepWord, address_or, maybe_text, text_at};
use lab_tables::{NameIndex, PolicyInput, RouterInput, word_at};
use std::alloc::Global;
use std::collections::HashSet;
use toml::Table;

// ---- costs

/// The routers that a cost connects.
#[derive(Clone, Copy, Debug, PartialEq, Eq, Hash)]
struct Ends {
    from: RouterId,
    to: RouterId,
}

/// Returns the routers that a cost connects, with 0 for an unknown name.
fn ends_of(routers: &NameIndex, table: &Table) -> Ends
    ensures { result ≡ record { from = (cost_of routers.now (table_view table.now)).from; to = (cost_of routers.now (table_view table.now)).to } }
{
    Ends {
        from: RouterId(routers.number_of(text_at("from", table))),
        to: RouterId(routers.number_of(text_at("to", table))),
    }
}

/// Returns the first wrong name of a cost, or that an earlier cost has the same ends.
fn cost_named(
    alloc: Global,
    routers: &NameIndex,
    again: bool,
    table: &Table,
) -> Result<Option<BadInput>, NoMemory>
    ensures { IfOk result (λ bad. bad ≡ first_of (unknown_lem routers.now (text_at_lem (codes "from") (table_view table.now))
        ∷ unknown_lem routers.now (text_at_lem (codes "to") (table_view table.now))
        ∷ repeated_if_lem again (text_at_lem (codes "to") (table_view table.now)) ∷ [])) }
{
    let from = unknown(alloc, routers, text_at("from", table))?;
    let to = unknown(alloc, routers, text_at("to", table))?;
    let pair = repeated_if(alloc, again, text_at("to", table))?;
    Ok(first(from, first(to, first(pair, None))))
}

/// Returns the first wrong name of costs.
pub(crate) fn costs_named(
    alloc: Global,
    routers: &NameIndex,
    tables: &[&Table],
) -> Result<Option<BadInput>, NoMemory>
    ensures { IfOk result (λ bad. bad ≡ each_after (cost_named_lem routers.now) [] (map (λ u. table_view u.now) tables.now)) }
{
    let mut seen = HashSet::new(alloc);
    for table in tables {
        let is_new = seen.insert(ends_of(routers, table))?;
        let found = cost_named(alloc, routers, !is_new, table)?;
        match found {
            Some(bad) => return Ok(Some(bad)),
            None => {}
        }
    }
    Ok(None)
}

// ---- peerings

/// Whether an earlier peering has the name of this one, and whether one has its remote's address.
#[derive(Clone, Copy)]
struct Again {
    name: bool,
    remote: bool,
}

/// Returns the remote's address.
fn remote_of(table: &Table) -> u32
    ensures { result ≡ remote_address_of (table_view table.now) }
{
    address_or(0, "remote_address", table)
}

/// Returns whether a router has this name.
fn is_called(name: &str, router: &RouterInput) -> bool
    ensures { result ≡ bytes_eq name.now router.now.name }
{
    name == router.name.as_str()
}

/// Returns the first router of this name.
fn router_called<'r>(routers: &'r [RouterInput], name: &str) -> Option<&'r RouterInput>
    ensures { option_copied result ≡ find (λ r. bytes_eq name.now r.name) routers.now }
{
    routers.iter().find(|router| is_called(name, router))
}

/// Returns whether a policy has this name.
fn is_policy(name: &str, policy: &PolicyInput) -> bool
    ensures { result ≡ bytes_eq name.now policy.now.name }
{
    name == policy.name.as_str()
}

/// Returns whether one of these policies has this name.
fn any_policy(name: &str, policies: &[PolicyInput]) -> bool
    ensures { result ≡ list_any (λ p. bytes_eq name.now p.name) policies.now }
{
    policies.iter().any(|policy| is_policy(name, policy))
}

/// Returns whether there is a router, and it has a policy of this name.
fn has_policy(router: Option<&RouterInput>, name: &str) -> bool
    ensures { result ≡ list_any (bytes_eq name.now) (option_map_or (λ r. map (λ p. p.name) r.policies) (option_copied router.entry) []) }
{
    match router {
        Some(router) => any_policy(name, &router.policies),
        None => false,
    }
}

/// Returns the fault of a policy, named at a key, that the router doesn't have.
fn policy_unknown(
    alloc: Global,
    router: Option<&RouterInput>,
    key: &str,
    table: &Table,
) -> Result<Option<BadInput>, NoMemory>
    ensures { IfOk result (λ bad. bad
        ≡ unknown_at_lem (option_map_or (λ r. map (λ p. p.name) r.policies) (option_copied router.entry) []) (maybe_text_lem key.now (table_view table.now))) }
{
    let Some(name) = maybe_text(key, table) else {
        return Ok(None);
    };
    if has_policy(router, name) {
        return Ok(None);
    }
    Ok(Some(BadInput::Unknown(Name::from_text(alloc, name)?)))
}

/// Returns the fault of a peering whose name or remote's address an earlier one has, or whose router is unknown.
fn identity_named(
    alloc: Global,
    names: &NameIndex,
    again: Again,
    table: &Table,
) -> Result<Option<BadInput>, NoMemory>
    ensures { IfOk result (λ bad. bad ≡ first_of (repeated_if_lem again.name (text_at_lem (codes "name") (table_view table.now))
        ∷ unknown_lem names.now (text_at_lem (codes "at") (table_view table.now))
        ∷ repeated_if_lem again.remote (address_text (remote_address_of (table_view table.now))) ∷ [])) }
{
    let name = repeated_if(alloc, again.name, text_at("name", table))?;
    let at = unknown(alloc, names, text_at("at", table))?;
    let address = repeated_address(alloc, again.remote, remote_of(table))?;
    Ok(first(name, first(at, first(address, None))))
}

/// Returns the fault of a policy that a peering names and its router doesn't have.
fn policy_named(
    alloc: Global,
    routers: &[RouterInput],
    table: &Table,
) -> Result<Option<BadInput>, NoMemory>
    ensures { IfOk result (λ bad. bad ≡ first_of (
        unknown_at_lem (policies_at_lem routers.now (text_at_lem (codes "at") (table_view table.now))) (maybe_text_lem (codes "import") (table_view table.now))
        ∷ unknown_at_lem (policies_at_lem routers.now (text_at_lem (codes "at") (table_view table.now)))
        (maybe_text_lem (codes "export") (table_view table.now)) ∷ [])) }
{
    let router = router_called(routers, text_at("at", table));
    let import = policy_unknown(alloc, router, "import", table)?;
    let export = policy_unknown(alloc, router, "export", table)?;
    Ok(first(import, first(export, None)))
}

/// Returns the first wrong name of a peering. `again` says whether earlier ones have its name or its remote's address.
fn peering_named(
    alloc: Global,
    routers: &[RouterInput],
    names: &NameIndex,
    again: Again,
    table: &Table,
) -> Result<Option<BadInput>, NoMemory>
    requires { names.now ≡ map (λ r. r.name) routers.now }
    ensures { IfOk result (λ bad. bad ≡ peering_fault routers.now again.name again.remote (table_view table.now)) }
{
    let identity = identity_named(alloc, names, again, table)?;
    let policy = policy_named(alloc, routers, table)?;
    Ok(first(identity, policy))
}

/// Returns the first wrong name of peerings.
pub(crate) fn peerings_named(
    alloc: Global,
    routers: &[RouterInput],
    names: &NameIndex,
    tables: &[&Table],
) -> Result<Option<BadInput>, NoMemory>
    requires { names.now ≡ map (λ r. r.name) routers.now }
    ensures { IfOk result (λ bad. bad ≡ each_after (peering_named_lem routers.now) [] (map (λ u. table_view u.now) tables.now)) }
{
    let mut called = HashSet::new(alloc);
    let mut remotes = HashSet::new(alloc);
    for table in tables {
        let new_name = called.insert(text_at("name", table))?;
        let new_remote = remotes.insert(remote_of(table))?;
        let again = Again {
            name: !new_name,
            remote: !new_remote,
        };
        let found = peering_named(alloc, routers, names, again, table)?;
        match found {
            Some(bad) => return Ok(Some(bad)),
            None => {}
        }
    }
    Ok(None)
}

// ---- steps

/// Returns the first wrong name of a step of this word.
fn worded_named(
    alloc: Global,
    routers: &NameIndex,
    peerings: &NameIndex,
    word: StepWord,
    table: &Table,
) -> Result<Option<BadInput>, NoMemory>
    ensures { IfOk result (λ bad. bad ≡ worded_named_lem word routers.now peerings.now (table_view table.now)) }
{
    match word {
        StepWord::Settles => Ok(None),
        StepWord::Evacuates => unknown(alloc, routers, text_at("router", table)),
        StepWord::Grafts => {
            if let Some(bad) = unknown(alloc, peerings, text_at("peering", table))? {
                return Ok(Some(bad));
            }
            unknown(alloc, routers, text_at("to", table))
        }
        _ => unknown(alloc, peerings, text_at("peering", table)),
    }
}

/// Returns the first wrong name of steps.
pub(crate) fn steps_named(
    alloc: Global,
    routers: &NameIndex,
    peerings: &NameIndex,
    tables: &[&Table],
) -> Result<Option<BadInput>, NoMemory>
    ensures { IfOk result (λ bad. bad ≡ first_of (map (λ u. step_named_lem routers.now peerings.now (table_view u.now)) tables.now)) }
{
    for table in tables {
        let word = word_at(table);
        if let Some(bad) = worded_named(alloc, routers, peerings, word, table)? {
            return Ok(Some(bad));
        }
    }
    Ok(None)
}

ghost use Rattle.std.specs.Prelude.{◌∷◌};
ghost use Rattle.lab_input.specs.Names.{unknown as unknown_lem, unknown_at as unknown_at_lem, repeated_if as repeated_if_lem};
ghost use Rattle.std.specs.Str.{bytes_eq};
