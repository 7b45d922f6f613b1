//! Pending UPDATEs of a session.

use adj_rib::AdjRib;
use anyhow::Result;
use bgp_types::{Message, NoMemory, Octets, PeeringId};
use bgp_wire::write_message;
use prefix_set::PrefixSet;
use rib_stages::{OutView, Rib};
use std::alloc::Global;
use update_plan::{next_update_is_one_way, plan};

/// Adds the prefixes that have a best route to a set, up to 100.
fn add_all(rib: &Rib, set: &mut PrefixSet) -> Result<(), NoMemory> {
    let mut last = None;
    for _n in 0..100u32 {
        let Some(prefix) = rib.next_best(last) else {
            return Ok(());
        };
        set.insert(prefix)?;
        last = Some(prefix);
    }
    Ok(())
}

/// Returns the octets of the only UPDATE on a session whose own address is 192.0.2.6, with two-octet AS numbers; `None`
/// unless exactly one is planned.
fn written(
    alloc: Global,
    rib: &Rib,
    due: &PrefixSet,
    peering: u8,
    remote_as: u32,
) -> Result<Option<Octets>, NoMemory> {
    let view = OutView {
        peering: PeeringId(peering),
        remote_as,
        local_address: 0xC000_0206,
        export: None,
    };
    let adj_rib_out = AdjRib::new(alloc);
    let batches = plan(alloc, rib, due, &adj_rib_out, &view, false)?;
    if batches.len() != 1 {
        return Ok(None);
    }
    let mut batches = batches.into_vec();
    let Some(batch) = batches.pop() else {
        return Ok(None);
    };
    if !batch.is_writable() {
        return Ok(None);
    }
    next_update_is_one_way();
    let message = Message::UpdateMsg(batch.into_update(alloc));
    Ok(Some(write_message(alloc, &message, false)?))
}

/// Returns the octets of a message in hexadecimal, without its marker.
fn octets_text(alloc: Global, octets: &Octets) -> Result<String> {
    let octets = octets.get(16..).unwrap_or(&[]);
    Ok(hex::encode_upper(alloc, octets)?)
}

/// Returns the octets of the only UPDATE that tells all best routes on a session with a remote of this AS, without the
/// marker.
pub fn planned(alloc: Global, rib: &Rib, peering: u8, remote_as: u32) -> Result<String> {
    let mut due = PrefixSet::new(alloc);
    add_all(rib, &mut due)?;
    match written(alloc, rib, &due, peering, remote_as)? {
        Some(octets) => octets_text(alloc, &octets),
        None => Ok(format!(in alloc; "not one UPDATE")?),
    }
}
