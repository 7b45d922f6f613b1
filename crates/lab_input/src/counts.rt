//! Counts over a whole input.

ghost use Rattle.std.specs.Prelude.{◌≡◌, ◌==◌, ◌&&◌, ◌++◌, List, length, map, option_copied, IfOk};
ghost use Rattle.std.specs.List.{flat_map};
ghost use Rattle.bgp_types.specs.declared.message.Message.TheVariants.{UpdateMsg};
ghost use Rattle.bgp_types.specs.Spelling.{spell};
ghost use Rattle.lab_keys.specs.Kinds.{first_of, each_from};
ghost use Rattle.lab_tables.specs.declared.input.Step.{Step as StepOf};
ghost use Rattle.lab_input.specs.Said.{step_update};
ghost use Rattle.lab_input.specs.Counts.{step_grafts, settles_of as settles_of_lem, added_settle as added_settle_lem, step_prefixes, IsTally};
ghost use Rattle.lab_input.specs.Counts.{peering_count_at, room_flaw as room_flaw_lem, is_wide as is_wide_lem, octets_said, speaker as speaker_lem};
ghost use Rattle.lab_input.specs.Counts.{AreSaid, most_said as most_said_lem, said_flaw as said_flaw_lem, over_limit, count_fault};

use crate::bad::BadInput;
use crate::told::{first, over};
use bgp_types::{Attrs, Items, NoMemory, Prefix, PrefixList, TryCopy, Update, update_len};
use lab_tables::{LabInput, PeeringInput, RouterInput, Step, each_once};
use std::alloc::Global;

/// The limit of grafts. An evacuate step counts as one for each peering.
pub const MOST_GRAFTS: u64 = 256;

/// The limit of settles, including an added one.
pub const MOST_SETTLES: u64 = 64;

/// The limit of distinct prefixes of networks and of announce and withdraw steps.
pub const MOST_PREFIXES: u64 = 4096;

/// The limit of octets that the remote of a peering says.
pub const MOST_OCTETS: u64 = 1_048_576;

/// The same limit for a remote that sends KEEPALIVEs of its own.
pub const MOST_OCTETS_BEATING: u64 = 524_288;

/// What is counted in one walk over the steps of an input.
#[derive(Drop)]
struct Tally {
    /// How many grafts the steps make at most.
    grafts: u64,
    /// The number of settles, without an added one.
    settles: u64,
    /// The prefixes of networks and of announce and withdraw steps.
    prefixes: PrefixList,
    /// The number of octets that the remote of each peering says.
    said: Vec<u64>,
}

/// Returns how many grafts a step makes at most, given the number of peerings.
fn grafts_of(peerings: u64, step: &Step) -> u64
    ensures { result ≡ step_grafts peerings step.now }
{
    match step {
        Step::Graft { .. } => 1,
        Step::Evacuate { .. } => peerings,
        _ => 0,
    }
}

fn settles_of(step: &Step) -> u64
    ensures { result ≡ settles_of_lem step.now }
{
    match step {
        Step::Settle { .. } => 1,
        _ => 0,
    }
}

/// Returns 1 if a settle is to be added, since the last step isn't one, and 0 otherwise.
fn added_settle(steps: &[Step]) -> u64
    ensures { result ≡ added_settle_lem steps.now }
{
    if steps.is_empty() {
        return 1;
    }
    1 - settles_of(&steps[steps.len() - 1])
}

/// Adds the prefixes of a step.
fn add_prefixes(all: &mut PrefixList, step: &Step) -> Result<(), NoMemory>
    ensures { OnOk result (all.new ≡ all.old ++ step_prefixes step.now) }
{
    match step {
        Step::Announce { prefixes, .. } => all.extend(prefixes),
        Step::Withdraw { prefixes, .. } => all.extend(prefixes),
        _ => Ok(()),
    }
}

/// Returns the networks of routers.
fn networks_of(alloc: Global, routers: &[RouterInput]) -> Result<PrefixList, NoMemory>
    ensures { IfOk result (λ all. all ≡ flat_map (λ r. r.networks) routers.now) }
{
    let mut all = PrefixList::new(alloc);
    for router in routers {
        all.extend(&router.networks)?;
    }
    Ok(all)
}

/// Returns the number of distinct prefixes.
fn distinct(alloc: Global, prefixes: &[Prefix]) -> Result<u64, NoMemory>
    ensures { IfOk result (λ n. n ≡ length (once_after [] prefixes.now)) }
{
    let once = each_once(alloc, prefixes)?;
    Ok(once.len() as u64)
}

/// Returns the number of peerings that start at a router.
pub fn peerings_at(peerings: &[PeeringInput], router: u64) -> u64
    ensures { result ≡ peering_count_at peerings.now router }
{
    peerings
        .iter()
        .filter(|peering| peering.at.0 as u64 == router)
        .count() as u64
}

/// Returns the fault of a router with more peerings than it has room for.
fn router_room(
    alloc: Global,
    peerings: &[PeeringInput],
    number: u64,
    router: &RouterInput,
) -> Result<Option<BadInput>, NoMemory>
    ensures { IfOk result (λ bad. bad ≡ room_flaw_lem peerings.now number router.now) }
{
    let there = peerings_at(peerings, number);
    let bad = over(alloc, "sessions", router.sessions as u64, there)?;
    Ok(bad)
}

/// Returns the fault of the first router with more peerings than it has room for.
fn room_flaw(
    alloc: Global,
    peerings: &[PeeringInput],
    routers: &[RouterInput],
) -> Result<Option<BadInput>, NoMemory>
    ensures { IfOk result (λ bad. bad ≡ each_from (room_flaw_lem peerings.now) 0 routers.now) }
{
    for (i, router) in routers.iter().enumerate() {
        let found = router_room(alloc, peerings, i as u64, router)?;
        match found {
            Some(bad) => return Ok(Some(bad)),
            None => {}
        }
    }
    Ok(None)
}

/// Returns whether a remote uses four-octet AS numbers: both sides support them.
fn is_wide(peering: &PeeringInput) -> bool
    ensures { result ≡ is_wide_lem peering.now }
{
    peering.as4 && peering.remote_as4
}

/// Returns the UPDATE that a step says.
pub fn update_of(alloc: Global, step: &Step) -> Result<Update, NoMemory>
    ensures { IfOk result (λ update. update ≡ step_update step.now) }
{
    match step {
        Step::Announce {
            prefixes,
            attrs,
            ..
        } => Ok(Update {
            withdrawn: Items::new(alloc),
            attrs: Some(attrs.copy()?),
            nlri: prefixes.copy()?,
        }),
        Step::Withdraw { prefixes, .. } => Ok(Update {
            withdrawn: prefixes.copy()?,
            attrs: None,
            nlri: Items::new(alloc),
        }),
        _ => Ok(Update {
            withdrawn: Items::new(alloc),
            attrs: None,
            nlri: Items::new(alloc),
        }),
    }
}

/// Returns the number of octets of the UPDATE with these fields.
fn octets_of(
    wide: bool,
    withdrawn: &[Prefix],
    attrs: Option<&Attrs>,
    nlri: &[Prefix],
) -> Result<u64, NoMemory>
    ensures { IfOk result
        (λ n. n ≡ length (spell (UpdateMsg (record { withdrawn = withdrawn.now; attrs = option_copied attrs.entry; nlri = nlri.now })) wide)) }
{
    let len = update_len(withdrawn, attrs, nlri, wide);
    if len == usize::MAX {
        return Err(NoMemory);
    }
    Ok(len as u64)
}

/// Returns the number of octets that a step says on a peering.
fn said_by(wide: bool, number: u64, step: &Step) -> Result<u64, NoMemory>
    ensures { IfOk result (λ n. n ≡ octets_said wide number step.now) }
{
    match step {
        Step::Announce {
            peering,
            prefixes,
            attrs,
        } if peering.0 as u64 == number => octets_of(wide, &[], Some(attrs), prefixes),
        Step::Withdraw { peering, prefixes } if peering.0 as u64 == number => {
            octets_of(wide, prefixes, None, &[])
        }
        Step::Raw { peering, bytes } if peering.0 as u64 == number => Ok(bytes.len() as u64),
        _ => Ok(0),
    }
}

/// Returns the index of the peering whose remote says something in a step, or 0 if none does.
fn speaker(step: &Step) -> usize
    ensures { result ≡ speaker_lem step.now }
{
    match step {
        Step::Announce { peering, .. } => usize::from(peering.0),
        Step::Withdraw { peering, .. } => usize::from(peering.0),
        Step::Raw { peering, .. } => usize::from(peering.0),
        _ => 0,
    }
}

/// Returns the number of octets that the remote of each peering says at first.
fn openings(alloc: Global, peerings: &[PeeringInput]) -> Result<Vec<u64>, NoMemory>
    ensures { IfOk result (λ said. said.items ≡ map (λ p. length p.opening) peerings.now) }
{
    let mut said = Vec::with_capacity(alloc, peerings.len())?;
    for peering in peerings {
        said.push(peering.opening.len() as u64)?;
    }
    Ok(said)
}

/// Adds the octets that a step says to those of its peering.
fn add_said(peerings: &[PeeringInput], said: &mut Vec<u64>, step: &Step) -> Result<(), NoMemory>
    requires { length said.old.items ≡ length peerings.now }
    ensures { OnOk result ((steps : List StepOf) → AreSaid steps peerings.now said.old.items → AreSaid (steps ++ step.now ∷ []) peerings.now said.new.items) }
{
    let number = speaker(step);
    if let Some(peering) = peerings.get(number) {
        let more = said_by(is_wide(peering), number as u64, step)?;
        said[number] = said[number].checked_add(more).ok_or(NoMemory)?;
    }
    Ok(())
}

/// Adds what a step counts. No counts that fit in memory have a sum above 64 bits.
fn count_step(peerings: &[PeeringInput], tally: &mut Tally, step: &Step) -> Result<(), NoMemory>
    requires { length tally.old.said.items ≡ length peerings.now }
    ensures grafts { OnOk result (tally.new.grafts ≡ tally.old.grafts + step_grafts (length peerings.now) step.now) }
    ensures settles { OnOk result (tally.new.settles ≡ tally.old.settles + settles_of_lem step.now) }
    ensures prefixes { OnOk result (tally.new.prefixes ≡ tally.old.prefixes ++ step_prefixes step.now) }
    ensures said { OnOk result
        ((steps : List StepOf) → AreSaid steps peerings.now tally.old.said.items → AreSaid (steps ++ step.now ∷ []) peerings.now tally.new.said.items) }
{
    let grafts = grafts_of(peerings.len() as u64, step);
    tally.grafts = tally.grafts.checked_add(grafts).ok_or(NoMemory)?;
    let settles = settles_of(step);
    tally.settles = tally.settles.checked_add(settles).ok_or(NoMemory)?;
    add_prefixes(&mut tally.prefixes, step)?;
    add_said(peerings, &mut tally.said, step)?;
    Ok(())
}

/// Returns what steps count, with these networks.
fn counts_of(
    alloc: Global,
    networks: PrefixList,
    peerings: &[PeeringInput],
    steps: &[Step],
) -> Result<Tally, NoMemory>
    ensures { IfOk result (λ tally. IsTally networks peerings.now steps.now tally) }
{
    let mut tally = Tally {
        grafts: 0,
        settles: 0,
        prefixes: networks,
        said: openings(alloc, peerings)?,
    };
    for step in steps {
        count_step(peerings, &mut tally, step)?;
    }
    Ok(tally)
}

/// Returns the limit of octets that the remote of a peering says. One that sends KEEPALIVEs of its own has half the
/// limit, so that they have room.
fn most_said(peering: &PeeringInput) -> u64
    ensures { result ≡ most_said_lem peering.now }
{
    if peering.beats {
        MOST_OCTETS_BEATING
    } else {
        MOST_OCTETS
    }
}

/// Returns the fault of the first peering whose remote says too much, given the number of octets that each one says.
fn said_flaw(
    alloc: Global,
    peerings: &[PeeringInput],
    said: &[u64],
) -> Result<Option<BadInput>, NoMemory>
    requires { length said.now ≡ length peerings.now }
    ensures { IfOk result (λ bad. (steps : List StepOf) → AreSaid steps peerings.now said.now → bad ≡ each_from (said_flaw_lem steps) 0 peerings.now) }
{
    for (i, peering) in peerings.iter().enumerate() {
        let found = over(alloc, "said", most_said(peering), said[i])?;
        match found {
            Some(bad) => return Ok(Some(bad)),
            None => {}
        }
    }
    Ok(None)
}

/// Returns the fault of more settles than a script may have, including an added one.
fn settles_flaw(alloc: Global, steps: &[Step], settles: u64) -> Result<Option<BadInput>, NoMemory>
    ensures { IfOk result (λ bad. bad ≡ over_limit (codes "settles") 64 (settles + added_settle_lem steps.now)) }
{
    let settles = settles.checked_add(added_settle(steps)).ok_or(NoMemory)?;
    let bad = over(alloc, "settles", MOST_SETTLES, settles)?;
    Ok(bad)
}

/// Returns the fault of more distinct prefixes than an input may name.
fn prefixes_flaw(alloc: Global, prefixes: &[Prefix]) -> Result<Option<BadInput>, NoMemory>
    ensures { IfOk result (λ bad. bad ≡ over_limit (codes "prefixes") 4096 (length (once_after [] prefixes.now))) }
{
    let n = distinct(alloc, prefixes)?;
    let bad = over(alloc, "prefixes", MOST_PREFIXES, n)?;
    Ok(bad)
}

/// Returns the fault of the first count of a whole input that is above its limit.
fn whole_flaw(alloc: Global, steps: &[Step], tally: &Tally) -> Result<Option<BadInput>, NoMemory>
    ensures { IfOk result (λ bad. bad ≡ first_of (over_limit (codes "grafts") 256 tally.now.grafts
        ∷ over_limit (codes "settles") 64 (tally.now.settles + added_settle_lem steps.now)
        ∷ over_limit (codes "prefixes") 4096 (length (once_after [] tally.now.prefixes)) ∷ [])) }
{
    let grafts = over(alloc, "grafts", MOST_GRAFTS, tally.grafts)?;
    let settles = settles_flaw(alloc, steps, tally.settles)?;
    let prefixes = prefixes_flaw(alloc, &tally.prefixes)?;
    Ok(first(grafts, first(settles, first(prefixes, None))))
}

/// Returns the fault of the first count of an input that is above its limit.
pub(crate) fn counted(alloc: Global, input: &LabInput) -> Result<Option<BadInput>, NoMemory>
    ensures { IfOk result (λ bad. bad ≡ count_fault input.now) }
{
    let networks = networks_of(alloc, &input.routers)?;
    let tally = counts_of(alloc, networks, &input.peerings, &input.steps)?;
    let whole = whole_flaw(alloc, &input.steps, &tally)?;
    let room = room_flaw(alloc, &input.peerings, &input.routers)?;
    let said = said_flaw(alloc, &input.peerings, &tally.said)?;
    Ok(first(whole, first(room, first(said, None))))
}

ghost use Rattle.std.specs.Prelude.{◌+◌, [], ◌∷◌, OnOk, codes};
ghost use Rattle.bgp_types.specs.Prefixes.{once_after};
