//! What stands in front of the steps, and what stands behind them.

ghost use Rattle.std.specs.Prelude.{◌≡◌, ◌++◌, IfOk, OnOk, string_bytes};
ghost use Rattle.std.specs.List.{flat_map};
ghost use Rattle.lab_import.specs.Texts.{first_id as first_id_lem, second_id as second_id_lem, head_text, tail_text, left_out_text, graft_text};
ghost use Rattle.lab_import.specs.Texts.{router_table, peering_names, peering_addresses, peering_opens, peering_table};

use crate::keys::{
    push_address, push_flag, push_number, push_octets, push_peering_name, push_text,
};
use graft_edge::NoMemory;
use imported_sessions::{Imported, ImportedPeering};
use std::alloc::Global;
use std::fmt::Write;

/// The identifier of the first router where the home side's OPEN wasn't captured.
const FIRST: u32 = 0x0AFF_0001;

const SECOND: u32 = 0x0AFF_0002;

/// Returns the identifier of the first router.
pub(crate) fn first_id(imported: &Imported) -> u32
    ensures { result ≡ first_id_lem imported.now }
{
    imported.home_id.unwrap_or(FIRST)
}

/// Returns that of the second one.
pub(crate) fn second_id(imported: &Imported) -> u32
    ensures { result ≡ second_id_lem imported.now }
{
    if first_id(imported) == SECOND {
        FIRST
    } else {
        SECOND
    }
}

#[tactic(auto, unfolding(crate::specs::Texts::router_table))]
fn push_router(text: &mut String, name: &str, id: u32) -> Result<(), NoMemory>
    ensures { OnOk result (string_bytes text.new ≡ string_bytes text.old ++ router_table name.now id) }
{
    text.push_str("[[router]]\n")?;
    push_text(text, "name", name)?;
    push_address(text, "id", id)?;
    push_number(text, "sessions", 32)?;
    text.push_str("\n")?;
    Ok(())
}

/// Adds the name of a peering, its router and the remote's AS.
#[tactic(auto, unfolding(crate::specs::Texts::peering_names))]
fn push_peering_names(text: &mut String, peering: &ImportedPeering) -> Result<(), NoMemory>
    ensures { OnOk result (string_bytes text.new ≡ string_bytes text.old ++ peering_names peering.now) }
{
    text.push_str("[[peering]]\n")?;
    push_peering_name(text, "name", peering.peer)?;
    push_text(text, "at", "r1")?;
    push_number(text, "remote_as", u64::from(peering.remote_as))?;
    Ok(())
}

/// Adds the addresses of a peering and the remote's identifier.
#[tactic(auto, unfolding(crate::specs::Texts::peering_addresses))]
fn push_peering_addresses(text: &mut String, peering: &ImportedPeering) -> Result<(), NoMemory>
    ensures { OnOk result (string_bytes text.new ≡ string_bytes text.old ++ peering_addresses peering.now) }
{
    push_address(text, "remote_address", peering.remote_address)?;
    push_address(text, "local_address", peering.local_address)?;
    push_address(text, "remote_id", peering.remote_id)
}

/// Adds what the two sides of a peering say at first.
#[tactic(auto, unfolding(crate::specs::Texts::peering_opens))]
fn push_peering_opens(
    text: &mut String,
    alloc: Global,
    peering: &ImportedPeering,
) -> Result<(), NoMemory>
    ensures { OnOk result (string_bytes text.new ≡ string_bytes text.old ++ peering_opens peering.now) }
{
    push_number(text, "hold", u64::from(peering.hold))?;
    push_octets(text, alloc, "opening", &peering.opening)?;
    push_flag(text, "as4", peering.as4)?;
    push_flag(text, "remote_as4", peering.remote_as4)?;
    push_number(text, "home_hold", u64::from(peering.home_hold))?;
    push_flag(text, "unicast", peering.unicast)?;
    text.push_str("\n")?;
    Ok(())
}

#[tactic(auto, unfolding(crate::specs::Texts::peering_table))]
fn push_peering(text: &mut String, alloc: Global, peering: &ImportedPeering) -> Result<(), NoMemory>
    ensures { OnOk result (string_bytes text.new ≡ string_bytes text.old ++ peering_table peering.now) }
{
    push_peering_names(text, peering)?;
    push_peering_addresses(text, peering)?;
    push_peering_opens(text, alloc, peering)
}

fn push_peerings(
    text: &mut String,
    alloc: Global,
    peerings: &[ImportedPeering],
) -> Result<(), NoMemory>
    ensures { OnOk result (string_bytes text.new ≡ string_bytes text.old ++ flat_map peering_table peerings.now) }
{
    for peering in peerings {
        push_peering(text, alloc, peering)?;
    }
    Ok(())
}

/// Adds what was left out, as a comment.
#[tactic(auto, unfolding(crate::specs::Texts::left_out_text))]
fn push_left_out(text: &mut String, imported: &Imported) -> Result<(), NoMemory>
    ensures { OnOk result (string_bytes text.new ≡ string_bytes text.old ++ left_out_text imported.now) }
{
    let fragments = imported.fragments;
    let others = imported.others;
    let internal = imported.internal;
    text.push_str("# Imported from a capture. Left out were, in packets and in sessions:\n")?;
    write!(
        text,
        "# fragments {fragments}, of other connections {others}, within the home AS {internal}\n"
    )?;
    Ok(())
}

/// Returns what stands in front of the steps.
#[tactic(auto, unfolding(crate::specs::Texts::head_text))]
pub(crate) fn head_of(alloc: Global, imported: &Imported) -> Result<String, NoMemory>
    ensures { IfOk result (λ text. string_bytes text ≡ head_text imported.now) }
{
    let mut text = String::new(alloc);
    push_left_out(&mut text, imported)?;
    text.push_str("\n")?;
    push_number(&mut text, "home_as", u64::from(imported.home_as))?;
    text.push_str("\n")?;
    push_router(&mut text, "r1", first_id(imported))?;
    push_router(&mut text, "r2", second_id(imported))?;
    push_peerings(&mut text, alloc, &imported.peerings)?;
    Ok(text)
}

/// Adds a graft of a peering, as a comment.
#[tactic(auto, unfolding(crate::specs::Texts::graft_text))]
fn push_graft(text: &mut String, peering: &ImportedPeering) -> Result<(), NoMemory>
    ensures { OnOk result (string_bytes text.new ≡ string_bytes text.old ++ graft_text peering.now) }
{
    text.push_str("# [[step]]\n")?;
    push_text(text, "# do", "graft")?;
    push_peering_name(text, "# peering", peering.peer)?;
    push_text(text, "# to", "r2")?;
    text.push_str("\n")?;
    Ok(())
}

fn push_grafts(text: &mut String, peerings: &[ImportedPeering]) -> Result<(), NoMemory>
    ensures { OnOk result (string_bytes text.new ≡ string_bytes text.old ++ flat_map graft_text peerings.now) }
{
    for peering in peerings {
        push_graft(text, peering)?;
    }
    Ok(())
}

/// Returns what stands behind the raw steps: a settle, and the grafts as comments. A graft in the group of the raw steps would find
/// no established session.
#[tactic(auto, unfolding(crate::specs::Texts::tail_text))]
pub(crate) fn tail_of(alloc: Global, imported: &Imported) -> Result<String, NoMemory>
    ensures { IfOk result (λ text. string_bytes text ≡ tail_text imported.now) }
{
    let mut text = String::new(alloc);
    text.push_str("[[step]]\n")?;
    push_text(&mut text, "do", "settle")?;
    text.push_str("\n")?;
    text.push_str(
        "# Without the signs in front of it, each of these steps moves a session to the other router.\n\n",
    )?;
    push_grafts(&mut text, &imported.peerings)?;
    Ok(text)
}
