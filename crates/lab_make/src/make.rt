//! The whole text.

ghost use Rattle.std.specs.Prelude.{◌≡◌, ◌++◌, ◌≤◌, OnOk, IfOk, string_bytes};
ghost use Rattle.lab_make.specs.Made.{tables_text, made};

use crate::script::push_script;
use crate::tables::{push_faults, push_peerings, push_routers};
use graft_edge::{Items, NoMemory, Octets};
use std::alloc::Global;

/// Appends the AS of the home network, and all tables but the steps.
fn push_tables(text: &mut String) -> Result<(), NoMemory>
    ensures { OnOk result (string_bytes text.new ≡ string_bytes text.old ++ tables_text) }
{
    text.push_str("home_as = 64600\n\n")?;
    push_routers(text)?;
    push_peerings(text)?;
    push_faults(text)
}

/// Returns the laboratory of a seed from 1 to 9,999, as the text of an input.
#[tactic(auto, unfolding(crate::specs::Made::made))]
pub fn make_lab(alloc: Global, seed: u32) -> Result<Octets, NoMemory>
    requires lowest { 1 ≤ seed }
    requires highest { seed ≤ 9999 }
    ensures { IfOk result (λ text. text ≡ made seed) }
{
    let mut text = String::new(alloc);
    push_tables(&mut text)?;
    push_script(&mut text, alloc, seed)?;
    Ok(Items::from_vec(text.into_bytes()))
}
