//! Paths of values, as texts.

ghost use Rattle.std.specs.Prelude.{◌≡◌, ◌++◌, OnOk, IfOk, string_bytes};
ghost use Rattle.lab_keys.specs.Spots.{index_text, table_text, member_text, key_spot_text};

use crate::spot::Spot;
use crate::table_at::TableAt;
use bgp_types::{Name, NoMemory};
use std::alloc::Global;
use std::fmt::Write;

/// Appends an index of an array.
fn push_index(text: &mut String, i: usize) -> Result<(), NoMemory>
    ensures { OnOk result (string_bytes text.new ≡ string_bytes text.old ++ index_text i) }
{
    text.push_str("[")?;
    write!(text, "{i}")?;
    text.push_str("]")?;
    Ok(())
}

/// Appends a name and an index of the array of that name.
fn push_item(text: &mut String, name: &str, i: usize) -> Result<(), NoMemory>
    ensures { OnOk result (string_bytes text.new ≡ string_bytes text.old ++ (name.now ++ index_text i)) }
{
    text.push_str(name)?;
    push_index(text, i)
}

/// Appends the path of a table and a dot.
fn push_table(text: &mut String, table: TableAt) -> Result<(), NoMemory>
    ensures { OnOk result (string_bytes text.new ≡ string_bytes text.old ++ table_text table) }
{
    match table {
        TableAt::Top => return Ok(()),
        TableAt::Router(i) => push_item(text, "router", i)?,
        TableAt::Policy(i, j) => {
            push_item(text, "router", i)?;
            push_item(text, ".policy", j)?;
        }
        TableAt::Rule(i, j, k) => {
            push_item(text, "router", i)?;
            push_item(text, ".policy", j)?;
            push_item(text, ".rule", k)?;
        }
        TableAt::Cost(i) => push_item(text, "cost", i)?,
        TableAt::Peering(i) => push_item(text, "peering", i)?,
        TableAt::Fault(i) => push_item(text, "fault", i)?,
        TableAt::Step(i) => push_item(text, "step", i)?,
        TableAt::Expect(i) => push_item(text, "expect", i)?,
    }
    text.push_str(".")?;
    Ok(())
}

/// Appends the index of a member, if there is one.
fn push_member(text: &mut String, member: Option<usize>) -> Result<(), NoMemory>
    ensures { OnOk result (string_bytes text.new ≡ string_bytes text.old ++ member_text member) }
{
    match member {
        Some(i) => push_index(text, i),
        None => Ok(()),
    }
}

/// Returns the path of a spot, like `router[0].policy[1].rule[0].ge` or `step[3].prefixes[2]`.
pub fn path_of<'a>(alloc: Global, spot: Spot<'a>) -> Result<Name, NoMemory>
    ensures { IfOk result (λ name. name ≡ key_spot_text spot.entry) }
{
    let (table, key, member) = spot.into_parts();
    let mut text = String::new(alloc);
    push_table(&mut text, table)?;
    text.push_str(key)?;
    push_member(&mut text, member)?;
    Ok(Name::from_string(text))
}
