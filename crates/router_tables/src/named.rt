//! A router's policies, by the names that sessions give them.

ghost use Rattle.std.specs.Prelude.{◌≡◌, option_copied, IfOk};
ghost use Rattle.actor_configs.specs.Configs.{rules_at};
ghost use Rattle.router_tables.specs.Entering.{missing_by, rules_by, unknown_by};

use actor_configs::{NamedPolicy, Policies};
use bgp_types::TryCopy;
use graft_edge::{Name, NoMemory};
use route_policy::Policy;
use session_value::SessionConfig;

/// Returns the first of these policies that has this name.
fn find_named<'a>(policies: &'a [NamedPolicy], name: &Name) -> Option<&'a Policy>
    ensures { option_copied result ≡ rules_at policies.now name.now }
{
    let named = policies
        .iter()
        .find(|policy| name.as_str() == policy.name.as_str())?;
    Some(&named.policy)
}

/// Returns the router's policy of the name that a session gives. `None` if the session names none, or the router has
/// none of that name.
pub fn policy_of<'a>(policies: &'a Policies, name: &Option<Name>) -> Option<&'a Policy>
    ensures { option_copied result ≡ rules_by policies.now name.now }
{
    match name {
        Some(name) => find_named(policies.as_slice(), name),
        None => None,
    }
}

/// Returns a copy of the policy name that a session gives, if the router has no policy of that name.
fn unknown(policies: &Policies, name: &Option<Name>) -> Result<Option<Name>, NoMemory>
    ensures { IfOk result (λ unknown. unknown ≡ unknown_by policies.now name.now) }
{
    let Some(name) = name else {
        return Ok(None);
    };
    match find_named(policies.as_slice(), name) {
        Some(_) => Ok(None),
        None => Ok(Some(name.copy()?)),
    }
}

/// Returns the first policy name of a session for which the router has no policy. The import policy comes before the
/// export policy.
pub fn missing_policy(policies: &Policies, config: &SessionConfig) -> Result<Option<Name>, NoMemory>
    ensures { IfOk result (λ missing. missing ≡ missing_by policies.now config.now) }
{
    match unknown(policies, &config.import)? {
        Some(name) => Ok(Some(name)),
        None => unknown(policies, &config.export),
    }
}
