//! The tables of the routers, the peerings and the faults.

ghost use Rattle.std.specs.Prelude.{◌≡◌, ◌++◌, ◌<◌, OnOk, string_bytes};
ghost use Rattle.lab_make.specs.Made.{each_below, router_table, peering_head, peering_addresses};
ghost use Rattle.lab_make.specs.Made.{peering_streams, peering_table, lose_table, repeat_table, fault_tables};

use crate::numbered::push_numbered;
use graft_edge::NoMemory;

fn push_router(text: &mut String, r: u32) -> Result<(), NoMemory>
    requires { r < 4 }
    ensures { OnOk result (string_bytes text.new ≡ string_bytes text.old ++ router_table r) }
{
    push_numbered(text, "[[router]]\nname = \"r", r, "\"\n")?;
    push_numbered(text, "id = \"10.255.0.", r + 1, "\"\nsessions = 12\n\n")
}

pub(crate) fn push_routers(text: &mut String) -> Result<(), NoMemory>
    ensures { OnOk result (string_bytes text.new ≡ string_bytes text.old ++ each_below router_table 4) }
{
    for r in 0..4u32 {
        push_router(text, r)?;
    }
    Ok(())
}

/// Appends the name of a peering, its first router, and its AS.
fn push_peering_head(text: &mut String, j: u32) -> Result<(), NoMemory>
    requires { j < 12 }
    ensures { OnOk result (string_bytes text.new ≡ string_bytes text.old ++ peering_head j) }
{
    push_numbered(text, "[[peering]]\nname = \"p", j, "\"\n")?;
    push_numbered(text, "at = \"r", j % 4, "\"\n")?;
    push_numbered(text, "remote_as = ", 64601 + j, "\n")
}

fn push_addresses(text: &mut String, j: u32) -> Result<(), NoMemory>
    requires { j < 12 }
    ensures { OnOk result (string_bytes text.new ≡ string_bytes text.old ++ peering_addresses j) }
{
    push_numbered(text, "remote_address = \"192.0.2.", 2 * j + 1, "\"\n")?;
    push_numbered(text, "local_address = \"192.0.2.", 2 * j + 2, "\"\n")
}

/// Appends the initial sequence numbers of a peering, which are so high that the numbers wrap around.
fn push_streams(text: &mut String, j: u32) -> Result<(), NoMemory>
    requires { j < 12 }
    ensures { OnOk result (string_bytes text.new ≡ string_bytes text.old ++ peering_streams j) }
{
    let first = 4_294_960_000 + 600 * j;
    push_numbered(text, "home_seq = ", first, "\n")?;
    push_numbered(text, "remote_seq = ", first, "\n\n")
}

fn push_peering(text: &mut String, j: u32) -> Result<(), NoMemory>
    requires { j < 12 }
    ensures { OnOk result (string_bytes text.new ≡ string_bytes text.old ++ peering_table j) }
{
    push_peering_head(text, j)?;
    push_addresses(text, j)?;
    push_streams(text, j)
}

pub(crate) fn push_peerings(text: &mut String) -> Result<(), NoMemory>
    ensures { OnOk result (string_bytes text.new ≡ string_bytes text.old ++ each_below peering_table 12) }
{
    for j in 0..12u32 {
        push_peering(text, j)?;
    }
    Ok(())
}

/// Appends the fault that loses the second segment to home.
fn push_lose(text: &mut String, j: u32) -> Result<(), NoMemory>
    ensures { OnOk result (string_bytes text.new ≡ string_bytes text.old ++ lose_table j) }
{
    push_numbered(
        text,
        "[[fault]]\npeering = \"p",
        j,
        "\"\nway = \"home\"\nsegment = 2\nkind = \"lose\"\n\n",
    )
}

/// Appends the fault that repeats the third segment to the remote, two turns later.
fn push_repeat(text: &mut String, j: u32) -> Result<(), NoMemory>
    ensures { OnOk result (string_bytes text.new ≡ string_bytes text.old ++ repeat_table j) }
{
    push_numbered(
        text,
        "[[fault]]\npeering = \"p",
        j,
        "\"\nway = \"remote\"\nsegment = 3\nkind = \"repeat\"\nafter = 2\n\n",
    )
}

fn push_two_faults(text: &mut String, j: u32) -> Result<(), NoMemory>
    ensures { OnOk result (string_bytes text.new ≡ string_bytes text.old ++ fault_tables j) }
{
    push_lose(text, j)?;
    push_repeat(text, j)
}

pub(crate) fn push_faults(text: &mut String) -> Result<(), NoMemory>
    ensures { OnOk result (string_bytes text.new ≡ string_bytes text.old ++ each_below fault_tables 12) }
{
    for j in 0..12u32 {
        push_two_faults(text, j)?;
    }
    Ok(())
}
