//! Steps that announce prefixes.

ghost use Rattle.std.specs.Prelude.{◌≡◌, ◌==◌, ◌+◌, ◌%◌, [], ◌∷◌, ◌++◌, ◌<◌, ◌≤◌, if◌then◌else◌, OnOk, IfOk, codes, string_bytes};
ghost use Rattle.std.specs.List.{flat_map, join_by};
ghost use Rattle.lab_make.specs.Made.{shifted_prefixes, quoted_prefix, announce_head, announce_path, announce_step};

use crate::numbered::push_numbered;
use graft_edge::{Items, NoMemory};
use std::alloc::Global;

/// Adds the number of a prefix if the prefix is one of peering `j`. Every twelfth is, from a place that depends on the
/// shift.
fn push_own(prefixes: &mut Items<u32>, i: u32, shift: u32, j: u32) -> Result<(), NoMemory>
    requires prefix { i < 2000 }
    requires shift { shift ≤ 10004 }
    ensures { OnOk result (prefixes.new ≡ prefixes.old ++ (if (i + shift) % 12 == j then i ∷ [] else [])) }
{
    if (i + shift) % 12 == j {
        return prefixes.push(i);
    }
    Ok(())
}

/// Returns the numbers of the prefixes of peering `j`.
fn prefixes_of(alloc: Global, shift: u32, j: u32) -> Result<Items<u32>, NoMemory>
    requires { shift ≤ 10004 }
    ensures { IfOk result (λ prefixes. prefixes ≡ shifted_prefixes shift j) }
{
    let mut prefixes = Items::new(alloc);
    for i in 0..2000u32 {
        push_own(&mut prefixes, i, shift, j)?;
    }
    Ok(prefixes)
}

/// Appends a prefix in quotes.
fn push_prefix(text: &mut String, i: u32) -> Result<(), NoMemory>
    ensures { OnOk result (string_bytes text.new ≡ string_bytes text.old ++ quoted_prefix i) }
{
    push_numbered(text, "\"10.", i / 256, ".")?;
    push_numbered(text, "", i % 256, ".0/24\"")
}

/// Appends further prefixes, each after a comma.
fn push_further(text: &mut String, prefixes: &[u32]) -> Result<(), NoMemory>
    ensures { OnOk result (string_bytes text.new ≡ string_bytes text.old ++ flat_map (λ i. codes ", " ++ quoted_prefix i) prefixes.now) }
{
    for i in prefixes {
        text.push_str(", ")?;
        push_prefix(text, *i)?;
    }
    Ok(())
}

/// Appends prefixes with commas between them.
fn push_prefixes(text: &mut String, prefixes: &Items<u32>) -> Result<(), NoMemory>
    ensures { OnOk result (string_bytes text.new ≡ string_bytes text.old ++ join_by quoted_prefix (codes ", ") prefixes.now) }
{
    let Some((first, further)) = prefixes.split_first() else {
        return Ok(());
    };
    push_prefix(text, *first)?;
    push_further(text, further)
}

fn push_head(text: &mut String, j: u32) -> Result<(), NoMemory>
    ensures { OnOk result (string_bytes text.new ≡ string_bytes text.old ++ announce_head j) }
{
    push_numbered(
        text,
        "[[step]]\ndo = \"announce\"\npeering = \"p",
        j,
        "\"\nprefixes = [",
    )
}

fn push_path(text: &mut String, further: &str, j: u32) -> Result<(), NoMemory>
    requires { j < 12 }
    ensures { OnOk result (string_bytes text.new ≡ string_bytes text.old ++ announce_path further.now j) }
{
    push_numbered(text, "]\npath = [", 64601 + j, further)?;
    text.push_str("]\n\n")?;
    Ok(())
}

/// Appends a step that announces the prefixes of peering `j` with a path of its AS followed by `further`.
pub(crate) fn push_announce(
    text: &mut String,
    alloc: Global,
    shift: u32,
    j: u32,
    further: &str,
) -> Result<(), NoMemory>
    requires shift { shift ≤ 10004 }
    requires peering { j < 12 }
    ensures { OnOk result (string_bytes text.new ≡ string_bytes text.old ++ announce_step shift further.now j) }
{
    let prefixes = prefixes_of(alloc, shift, j)?;
    push_head(text, j)?;
    push_prefixes(text, &prefixes)?;
    push_path(text, further, j)
}
