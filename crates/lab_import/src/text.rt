//! The text of a laboratory.

ghost use Rattle.std.specs.Prelude.{◌≡◌, ◌++◌, Err, IfOk, MatchBool, string_bytes};
ghost use Rattle.lab_input.specs.Labs.{InputOf};
ghost use Rattle.lab_import.specs.Texts.{text_of};
ghost use Rattle.lab_import.specs.Limits.{AllStepsFit, Fits, IsBeyond, IsStepBeyond};
ghost use Rattle.lab_import.specs.Inputs.{input_of_import};
ghost use Rattle.lab_import.specs.declared.limits.Beyond.{Beyond as BeyondValue};
ghost use Rattle.lab_import.specs.declared.limits.TextStop.TheVariants as stops;

use crate::limits::{TextStop, peering_beyond};
use crate::same::same_input;
use crate::steps::push_steps;
use crate::tables::{head_of, tail_of};
use graft_edge::{Items, NoMemory, Octets};
use imported_sessions::Imported;
use lab_input::{LabStop, read_lab};
use std::alloc::Global;

/// Returns a text with what stands behind it.
fn finished(mut text: String, tail: &str) -> Result<Octets, NoMemory>
    ensures { IfOk result (λ octets. octets ≡ string_bytes text ++ tail.now) }
{
    text.push_str(tail)?;
    Ok(Items::from_vec(text.into_bytes()))
}

/// Returns the text of sessions whose steps have room.
#[tactic(auto, unfolding(crate::specs::Texts::text_of))]
fn whole_text(alloc: Global, imported: &Imported) -> Result<Octets, TextStop>
    ensures text { IfOk result (λ text. text ≡ text_of imported.now) }
    ensures fits { IfOk result (λ _. AllStepsFit imported.now) }
    ensures beyond { (beyond : BeyondValue) → result ≡ Err (stops.Beyond beyond) → IsStepBeyond imported.now beyond }
{
    let mut text = head_of(alloc, imported)?;
    let tail = tail_of(alloc, imported)?;
    push_steps(&mut text, alloc, imported, tail.len())?;
    Ok(finished(text, tail.as_str())?)
}

/// Returns the text of a laboratory with these sessions, if they have room in an input.
pub(crate) fn lab_text(alloc: Global, imported: &Imported) -> Result<Octets, TextStop>
    ensures text { IfOk result (λ text. text ≡ text_of imported.now) }
    ensures fits { IfOk result (λ _. Fits imported.now) }
    ensures beyond { (beyond : BeyondValue) → result ≡ Err (stops.Beyond beyond) → IsBeyond imported.now beyond }
{
    if let Some(beyond) = peering_beyond(&imported.peerings) {
        return Err(TextStop::Beyond(beyond));
    }
    whole_text(alloc, imported)
}

/// Returns whether a text is read as the laboratory with these sessions.
pub(crate) fn is_read(alloc: Global, text: &[u8], imported: &Imported) -> Result<bool, NoMemory>
    ensures { IfOk result (λ read. MatchBool read (InputOf text.now (input_of_import imported.now))
        (¬ InputOf text.now (input_of_import imported.now))) }
{
    match read_lab(alloc, text) {
        Ok(lab) => same_input(alloc, &lab, imported),
        Err(LabStop::Bad(_)) => Ok(false),
        Err(LabStop::NoMemory) => Err(NoMemory),
    }
}
