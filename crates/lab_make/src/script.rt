//! The steps.

ghost use Rattle.std.specs.Prelude.{◌≡◌, ◌==◌, ◌++◌, ◌<◌, ◌≤◌, if◌then◌else◌, OnOk, string_bytes};
ghost use Rattle.lab_make.specs.Made.{each_below, moved_peering, moves_before, target_of, first_step};
ghost use Rattle.lab_make.specs.Made.{later_step, settle_step, graft_step, graft_round, script_text};

use crate::announce::push_announce;
use crate::numbered::push_numbered;
use graft_edge::NoMemory;
use std::alloc::Global;

/// Appends the steps in which each peering announces its prefixes.
fn push_announcements(text: &mut String, alloc: Global, seed: u32) -> Result<(), NoMemory>
    requires { seed ≤ 9999 }
    ensures { OnOk result (string_bytes text.new ≡ string_bytes text.old ++ each_below (first_step seed) 12) }
{
    for j in 0..12u32 {
        push_announce(text, alloc, seed, j, "")?;
    }
    Ok(())
}

/// Returns the peering that a graft moves.
fn moved_by(seed: u32, g: u32) -> u32
    requires seed { seed ≤ 9999 }
    requires graft { g < 20 }
    ensures { result ≡ moved_peering seed g }
{
    (5 * g + seed) % 12
}

/// Returns 1 if a graft moves this peering, and 0 otherwise.
fn moves_by(seed: u32, g: u32, peering: u32) -> u32
    requires seed { seed ≤ 9999 }
    requires graft { g < 20 }
    ensures counted { result ≡ (if moved_peering seed g == peering then 1 else 0) }
    ensures few { result ≤ 1 }
{
    if moved_by(seed, g) == peering { 1 } else { 0 }
}

/// Returns how often the grafts before graft `g` move a peering.
fn moves_before(seed: u32, g: u32, peering: u32) -> u32
    requires seed { seed ≤ 9999 }
    requires graft { g < 20 }
    ensures counted { result ≡ moves_before seed peering g }
    ensures few { result ≤ g }
{
    let mut moves = 0u32;
    for h in 0..g {
        moves += moves_by(seed, h, peering);
    }
    moves
}

/// Returns the router to which a graft moves its peering: the one after the current one.
fn target_of(seed: u32, g: u32) -> u32
    requires seed { seed ≤ 9999 }
    requires graft { g < 20 }
    ensures { result ≡ target_of seed g }
{
    let peering = moved_by(seed, g);
    (peering + moves_before(seed, g, peering) + 1) % 4
}

fn push_graft(text: &mut String, seed: u32, g: u32) -> Result<(), NoMemory>
    requires seed { seed ≤ 9999 }
    requires graft { g < 20 }
    ensures { OnOk result (string_bytes text.new ≡ string_bytes text.old ++ graft_step seed g) }
{
    let peering = moved_by(seed, g);
    let target = target_of(seed, g);
    push_numbered(
        text,
        "[[step]]\ndo = \"graft\"\npeering = \"p",
        peering,
        "\"\n",
    )?;
    push_numbered(text, "to = \"r", target, "\"\n\n")
}

/// Appends the announcement with a longer path that follows each of the first twelve grafts.
fn push_later(text: &mut String, alloc: Global, seed: u32, g: u32) -> Result<(), NoMemory>
    requires { seed ≤ 9999 }
    ensures { OnOk result (string_bytes text.new ≡ string_bytes text.old ++ later_step seed g) }
{
    if g < 12 {
        return push_announce(text, alloc, seed + 5, g, ", 64700");
    }
    Ok(())
}

fn push_round(text: &mut String, alloc: Global, seed: u32, g: u32) -> Result<(), NoMemory>
    requires seed { seed ≤ 9999 }
    requires graft { g < 20 }
    ensures { OnOk result (string_bytes text.new ≡ string_bytes text.old ++ graft_round seed g) }
{
    push_graft(text, seed, g)?;
    push_later(text, alloc, seed, g)
}

fn push_rounds(text: &mut String, alloc: Global, seed: u32) -> Result<(), NoMemory>
    requires { seed ≤ 9999 }
    ensures { OnOk result (string_bytes text.new ≡ string_bytes text.old ++ each_below (graft_round seed) 20) }
{
    for g in 0..20u32 {
        push_round(text, alloc, seed, g)?;
    }
    Ok(())
}

fn push_settle(text: &mut String) -> Result<(), NoMemory>
    ensures { OnOk result (string_bytes text.new ≡ string_bytes text.old ++ settle_step) }
{
    text.push_str("[[step]]\ndo = \"settle\"\n\n")?;
    Ok(())
}

/// Appends all steps.
pub(crate) fn push_script(text: &mut String, alloc: Global, seed: u32) -> Result<(), NoMemory>
    requires { seed ≤ 9999 }
    ensures { OnOk result (string_bytes text.new ≡ string_bytes text.old ++ script_text seed) }
{
    push_announcements(text, alloc, seed)?;
    push_settle(text)?;
    push_rounds(text, alloc, seed)?;
    push_settle(text)
}
