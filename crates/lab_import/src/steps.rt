//! The steps of a text.

ghost use Rattle.std.specs.Prelude.{◌≡◌, ◌++◌, Err, length, OnOk, string_bytes};
ghost use Rattle.lab_import.specs.Texts.{head_text, step_text, steps_text, tail_text};
ghost use Rattle.lab_import.specs.Limits.{AllStepsFit, IsStepBeyond};
ghost use Rattle.lab_import.specs.declared.limits.Beyond.{Beyond as BeyondValue};
ghost use Rattle.lab_import.specs.declared.limits.TextStop.TheVariants as stops;

use crate::keys::{push_octets, push_peering_name, push_text};
use crate::limits::{Beyond, TextStop, fits_step, note_said, said_so_far};
use graft_edge::NoMemory;
use imported_sessions::{Imported, Said};
use std::alloc::Global;
use std::collections::BTreeMap;

#[tactic(auto, unfolding(crate::specs::Texts::step_text))]
fn push_step(text: &mut String, alloc: Global, step: &Said) -> Result<(), NoMemory>
    ensures { OnOk result (string_bytes text.new ≡ string_bytes text.old ++ step_text step.now) }
{
    text.push_str("[[step]]\n")?;
    push_text(text, "do", "raw")?;
    push_peering_name(text, "peering", step.peer)?;
    push_octets(text, alloc, "hex", &step.octets)?;
    text.push_str("\n")?;
    Ok(())
}

/// Adds the steps, as far as they have room together with what stands in front of them and `tail` bytes behind them.
pub(crate) fn push_steps(
    text: &mut String,
    alloc: Global,
    imported: &Imported,
    tail: usize,
) -> Result<(), TextStop>
    requires head { string_bytes text.old ≡ head_text imported.now }
    requires tail { tail ≡ length (tail_text imported.now) }
    ensures text { OnOk result (string_bytes text.new ≡ string_bytes text.old ++ steps_text imported.now.steps) }
    ensures fits { OnOk result (AllStepsFit imported.now) }
    ensures beyond { (beyond : BeyondValue) → result ≡ Err (stops.Beyond beyond) → IsStepBeyond imported.now beyond }
{
    let mut said = BTreeMap::new(alloc);
    for (n, step) in imported.steps.iter().enumerate() {
        let place = said_so_far(&said, &imported.peerings, step.peer);
        push_step(text, alloc, step)?;
        let end = place.saturating_add(step.octets.len() as u64);
        if !fits_step(n, end, text.len().saturating_add(tail)) {
            return Err(TextStop::Beyond(Beyond {
                peer: step.peer,
                octet: place,
            }));
        }
        note_said(&mut said, step.peer, end)?;
    }
    Ok(())
}
