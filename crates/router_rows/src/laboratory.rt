//! The laboratory of the rows, of home AS 65000: three routers, 0 to 2, whose identifiers are 10.255.0.1 to
//! 10.255.0.3; five peerings, 0 to 4, whose far sides are actors 3 to 7; and the operator, actor 8.
//!
//! | Router | Room | Policies | Networks | Sessions that start there |
//! |---|---|---|---|---|
//! | 0 | 4 | `in`, without rules | none | 0 and 1, without policies |
//! | 1 | 4 | `in`, which sets preference 200, and `out`, without rules | none | 3, by `in` and `out`; 4, by `in`, which offers a hold time of 90 seconds |
//! | 2 | 2 | none | 198.51.100.0/24 | 2, without policies |
//!
//! The remote of peering p has AS 65001 + p and the address 192.0.2.(4p + 1); the home side has the next address. The
//! remote's initial sequence number is 5000, and the home side's 1000. All hold times but that of peering 4 are 0.

ghost use Rattle.std.specs.Prelude.{◌≡◌, ◌∷◌, [], false, None, Some, IfOk};
ghost use Rattle.actor_configs.specs.Configs.{starting_here};
ghost use Rattle.router_rows.specs.Laboratory.{config_with, in_name, out_name, laboratory, prefers};

use crate::sessions::{firsts, session};
use actor_configs::{NamedPolicy, Policies, RouterConfig};
use bgp_types::Prefix;
use graft_actors::Known;
use graft_edge::{Items, Name, NoMemory, RouterId};
use rib_stages::RibConfig;
use route_policy::{Policy, Rule};
use router_core::Router;
use session_value::SessionConfig;
use std::alloc::Global;

/// The identifiers of the routers: 10.255.0.1 to 10.255.0.3.
const FIRST_IDENTIFIER: u32 = 0x0AFF_0001;

/// Returns a policy with this name.
fn named(alloc: Global, text: &str, policy: Policy) -> Result<NamedPolicy, NoMemory>
    ensures { IfOk result (λ named. named ≡ record { name = text.now; policy = policy }) }
{
    let name = Name::from_text(alloc, text)?;
    Ok(NamedPolicy { name, policy })
}

/// Returns the policies of router 0.
fn policies_of_0(alloc: Global) -> Result<Policies, NoMemory>
    ensures { IfOk result (λ policies. policies ≡ record { name = in_name; policy = [] } ∷ []) }
{
    Items::one(alloc, named(alloc, "in", Policy::new(Items::new(alloc)))?)
}

/// Returns the policy of one rule, which sets a preference.
fn preferring(alloc: Global, pref: Option<u32>) -> Result<Policy, NoMemory>
    ensures { IfOk result (λ policy. policy ≡ record { within = None; has_as = None; origin = None; deny = false; pref = pref; med = None; prepend = 0 } ∷ []) }
{
    let rules = Items::one(
        alloc,
        Rule {
            within: None,
            has_as: None,
            origin: None,
            deny: false,
            pref,
            med: None,
            prepend: 0,
        },
    )?;
    Ok(Policy::new(rules))
}

/// Returns the policies of router 1.
fn policies_of_1(alloc: Global) -> Result<Policies, NoMemory>
    ensures { IfOk result (λ policies. policies ≡ record { name = in_name; policy = prefers ∷ [] } ∷ record { name = out_name; policy = [] } ∷ []) }
{
    let import = named(alloc, "in", preferring(alloc, Some(200))?)?;
    let mut policies = Items::one(alloc, import)?;
    let export = named(alloc, "out", Policy::new(Items::new(alloc)))?;
    policies.push(export)?;
    Ok(policies)
}

/// Returns the networks of router 2.
fn networks_of_2(alloc: Global) -> Result<Items<Prefix>, NoMemory>
    ensures { IfOk result (λ networks. networks ≡ record { address = 0xC6336400; len = 24 } ∷ []) }
{
    match Prefix::new(0xC633_6400, 24) {
        Some(network) => Items::one(alloc, network),
        None => Err(NoMemory),
    }
}

/// Returns the configurations of the sessions that start at router 0.
fn sessions_of_0(alloc: Global) -> Result<Items<SessionConfig>, NoMemory>
    ensures { IfOk result (λ sessions. sessions ≡ starting_here laboratory 0) }
{
    let mut sessions = Items::one(alloc, session(0, FIRST_IDENTIFIER, 0, None, None))?;
    sessions.push(session(1, FIRST_IDENTIFIER, 0, None, None))?;
    Ok(sessions)
}

/// Returns the configurations of the sessions that start at router 1.
fn sessions_of_1(alloc: Global) -> Result<Items<SessionConfig>, NoMemory>
    ensures { IfOk result (λ sessions. sessions ≡ starting_here laboratory 1) }
{
    let identifier = FIRST_IDENTIFIER + 1;
    let import = Name::from_text(alloc, "in")?;
    let export = Name::from_text(alloc, "out")?;
    let third = session(3, identifier, 0, Some(import), Some(export));
    let mut sessions = Items::one(alloc, third)?;
    let import = Name::from_text(alloc, "in")?;
    sessions.push(session(4, identifier, 90, Some(import), None))?;
    Ok(sessions)
}

/// Returns the configurations of the sessions that start at router 2.
fn sessions_of_2(alloc: Global) -> Result<Items<SessionConfig>, NoMemory>
    ensures { IfOk result (λ sessions. sessions ≡ starting_here laboratory 2) }
{
    Items::one(alloc, session(2, FIRST_IDENTIFIER + 2, 0, None, None))
}

/// Returns the configuration of a router: its number, its room, its policies, its networks and the sessions that start
/// there.
fn config(
    alloc: Global,
    number: u8,
    room: u32,
    policies: Policies,
    networks: Items<Prefix>,
    sessions: Items<SessionConfig>,
) -> Result<RouterConfig, NoMemory>
    ensures { IfOk result (λ config. config ≡ config_with number room policies networks sessions) }
{
    let identifiers = Vec::from_array(
        alloc,
        [FIRST_IDENTIFIER, FIRST_IDENTIFIER + 1, FIRST_IDENTIFIER + 2],
    )?;
    let firsts = firsts(alloc)?;
    Ok(RouterConfig {
        number: RouterId(number),
        routers: 3,
        room,
        policies,
        rib: RibConfig {
            home_as: 65_000,
            router: RouterId(number),
            identifiers: Items::from_vec(identifiers),
            costs: Items::new(alloc),
            networks,
        },
        firsts,
        sessions,
    })
}

/// Returns router 0 at its beginning.
pub fn router_0(alloc: Global) -> Result<Router, NoMemory> {
    let known = Known::new();
    let policies = policies_of_0(alloc)?;
    let networks = Items::new(alloc);
    let sessions = sessions_of_0(alloc)?;
    let config = config(alloc, 0, 4, policies, networks, sessions)?;
    Router::new(alloc, known, config)
}

/// Returns router 1 at its beginning.
pub fn router_1(alloc: Global) -> Result<Router, NoMemory> {
    let known = Known::new();
    let policies = policies_of_1(alloc)?;
    let networks = Items::new(alloc);
    let sessions = sessions_of_1(alloc)?;
    let config = config(alloc, 1, 4, policies, networks, sessions)?;
    Router::new(alloc, known, config)
}

/// Returns router 2 at its beginning.
pub fn router_2(alloc: Global) -> Result<Router, NoMemory> {
    let known = Known::new();
    let policies = Items::new(alloc);
    let networks = networks_of_2(alloc)?;
    let sessions = sessions_of_2(alloc)?;
    let config = config(alloc, 2, 2, policies, networks, sessions)?;
    Router::new(alloc, known, config)
}
