//! Routers with more peerings than places.

ghost use Rattle.std.specs.Prelude.{◌≡◌, ◌++◌, OnOk, string_bytes, option_map};
ghost use Rattle.lab_keys.specs.Kinds.{each_from};
ghost use Rattle.lab_hints.specs.Later.{crowd_words, crowded_words, sessions_words};

use crate::wanted::push_words;
use bgp_types::NoMemory;
use lab_input::{LabInput, PeeringInput, RouterInput, peerings_at};
use std::fmt::Write;

/// A router, and how many peerings start there.
#[derive(Drop)]
struct Crowd<'r> {
    router: &'r RouterInput,
    peerings: u64,
}

/// Returns the router of this number with its peerings, if it hasn't room for them.
fn crowd_at<'r>(
    peerings: &[PeeringInput],
    number: u64,
    router: &'r RouterInput,
) -> Option<Crowd<'r>>
    ensures { option_map (λ crowd. crowd_words crowd.router.now crowd.peerings) result ≡ crowded_words peerings.now number router.now }
{
    let there = peerings_at(peerings, number);
    if there <= u64::from(router.sessions) {
        return None;
    }
    Some(Crowd {
        router,
        peerings: there,
    })
}

/// Returns the first router that hasn't room for its peerings.
fn crowd_in<'r>(peerings: &[PeeringInput], routers: &'r [RouterInput]) -> Option<Crowd<'r>>
    ensures { option_map (λ crowd. crowd_words crowd.router.now crowd.peerings) result ≡ each_from (crowded_words peerings.now) 0 routers.now }
{
    for (i, router) in routers.iter().enumerate() {
        match crowd_at(peerings, i as u64, router) {
            Some(crowd) => return Some(crowd),
            None => {}
        }
    }
    None
}

/// Adds that a router hasn't room for its peerings.
fn push_crowd(text: &mut String, router: &RouterInput, peerings: u64) -> Result<(), NoMemory>
    ensures { OnOk result (string_bytes text.new ≡ string_bytes text.old ++ crowd_words router.now peerings) }
{
    let name = router.name.as_str();
    let sessions = router.sessions;
    write!(
        text,
        "router {name} has sessions = {sessions}, and the peerings that start there are {peerings}"
    )?;
    Ok(())
}

/// Adds which router hasn't room for its peerings.
pub(crate) fn push_sessions(text: &mut String, lab: &LabInput) -> Result<(), NoMemory>
    ensures { OnOk result (string_bytes text.new ≡ string_bytes text.old ++ sessions_words lab.now) }
{
    let peerings = lab.peerings.as_slice();
    let routers = lab.routers.as_slice();
    match crowd_in(peerings, routers) {
        Some(crowd) => push_crowd(text, crowd.router, crowd.peerings),
        None => push_words(text, "a router has room for all peerings that start there"),
    }
}
