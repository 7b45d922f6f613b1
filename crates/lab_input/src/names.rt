//! Repeated names and unknown names.

ghost use Rattle.std.specs.Prelude.{◌≡◌, [], IfOk};
ghost use Rattle.bgp_types.specs.Texts.{address_text, prefix_text};
ghost use Rattle.lab_input.specs.Names.{unknown as unknown_lem, each_after, network_again as network_again_lem};
ghost use Rattle.lab_input.specs.Names.{policy_again as policy_again_lem, router_again as router_again_lem, repeated_if as repeated_if_lem};

use crate::bad::BadInput;
use crate::told::{first, repeated_if};
use bgp_types::{Address, Name, NoMemory, Prefix};
use lab_tables::{NameIndex, PolicyInput, RouterInput};
use std::alloc::Global;
use std::collections::HashSet;

/// Returns the fault of a text that is none of these names.
pub(crate) fn unknown(
    alloc: Global,
    names: &NameIndex,
    text: &str,
) -> Result<Option<BadInput>, NoMemory>
    ensures { IfOk result (λ bad. bad ≡ unknown_lem names.now text.now) }
{
    if names.has(text) {
        return Ok(None);
    }
    Ok(Some(BadInput::Unknown(Name::from_text(alloc, text)?)))
}

/// Returns the fault of a repeated address, if the test is true.
pub(crate) fn repeated_address(
    alloc: Global,
    again: bool,
    address: u32,
) -> Result<Option<BadInput>, NoMemory>
    ensures { IfOk result (λ bad. bad ≡ repeated_if_lem again (address_text address)) }
{
    if !again {
        return Ok(None);
    }
    let text = format!(in alloc; "{}", Address(address))?;
    Ok(Some(BadInput::Repeated(Name::from_string(text))))
}

/// Returns the fault of a repeated network, if the test is true.
fn network_again(alloc: Global, again: bool, network: Prefix) -> Result<Option<BadInput>, NoMemory>
    ensures { IfOk result (λ bad. bad ≡ repeated_if_lem again (prefix_text network)) }
{
    if !again {
        return Ok(None);
    }
    let text = format!(in alloc; "{network}")?;
    Ok(Some(BadInput::Repeated(Name::from_string(text))))
}

/// Returns the fault of the first network of a router that is repeated.
fn networks_again(alloc: Global, networks: &[Prefix]) -> Result<Option<BadInput>, NoMemory>
    ensures { IfOk result (λ bad. bad ≡ each_after network_again_lem [] networks.now) }
{
    let mut seen = HashSet::new(alloc);
    for network in networks {
        let is_new = seen.insert(*network)?;
        let found = network_again(alloc, !is_new, *network)?;
        match found {
            Some(bad) => return Ok(Some(bad)),
            None => {}
        }
    }
    Ok(None)
}

/// Returns the fault of the first policy of a router whose name an earlier one has.
fn policies_again(alloc: Global, policies: &[PolicyInput]) -> Result<Option<BadInput>, NoMemory>
    ensures { IfOk result (λ bad. bad ≡ each_after policy_again_lem [] policies.now) }
{
    let mut seen = HashSet::new(alloc);
    for policy in policies {
        let name = policy.name.as_str();
        let is_new = seen.insert(name)?;
        let found = repeated_if(alloc, !is_new, name)?;
        match found {
            Some(bad) => return Ok(Some(bad)),
            None => {}
        }
    }
    Ok(None)
}

/// Returns the first repetition in a router: its name or its identifier, which an earlier router may have, or one of
/// its own networks or policies.
fn router_again(
    alloc: Global,
    again_name: bool,
    again_id: bool,
    router: &RouterInput,
) -> Result<Option<BadInput>, NoMemory>
    ensures { IfOk result (λ bad. bad ≡ first_of (repeated_if_lem again_name router.now.name ∷ repeated_if_lem again_id (address_text router.now.id)
        ∷ each_after network_again_lem [] router.now.networks ∷ each_after policy_again_lem [] router.now.policies ∷ [])) }
{
    let name = repeated_if(alloc, again_name, router.name.as_str())?;
    let id = repeated_address(alloc, again_id, router.id)?;
    let network = networks_again(alloc, &router.networks)?;
    let policy = policies_again(alloc, &router.policies)?;
    Ok(first(name, first(id, first(network, first(policy, None)))))
}

/// Returns the first repetition in routers.
pub(crate) fn routers_again(
    alloc: Global,
    routers: &[RouterInput],
) -> Result<Option<BadInput>, NoMemory>
    ensures { IfOk result (λ bad. bad ≡ each_after router_again_lem [] routers.now) }
{
    let mut names = HashSet::new(alloc);
    let mut ids = HashSet::new(alloc);
    for router in routers {
        let name = router.name.as_str();
        let new_name = names.insert(name)?;
        let new_id = ids.insert(router.id)?;
        let found = router_again(alloc, !new_name, !new_id, router)?;
        match found {
            Some(bad) => return Ok(Some(bad)),
            None => {}
        }
    }
    Ok(None)
}

ghost use Rattle.std.specs.Prelude.{◌∷◌};
ghost use Rattle.lab_keys.specs.Kinds.{first_of};
