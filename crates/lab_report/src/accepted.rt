//! The text of an accepted input.

ghost use Rattle.std.specs.Prelude.{◌≡◌, IfOk};
ghost use Rattle.lab_report.specs.CheckText.{check_text as check_text_lem, yes_or_no as yes_or_no_lem};

use graft_edge::{Items, NoMemory, Octets};
use lab_tables::LabInput;
use std::alloc::Global;
use std::fmt::Write;

/// Returns the word for the outcome of a test.
pub fn yes_or_no(holds: bool) -> &'static str
    ensures { result.now ≡ yes_or_no_lem holds }
{
    if holds { "yes" } else { "no" }
}

/// A line that tells how many routers, peerings and steps an input has, and one that tells whether routes of one neighbour AS
/// never differ in MED there, and whether its script alone decides what becomes of its grafts.
#[tactic(auto, unfolding(crate::specs::CheckText::check_text))]
pub fn check_text(
    alloc: Global,
    input: &LabInput,
    even: bool,
    sure: bool,
) -> Result<Octets, NoMemory>
    ensures { IfOk result (λ text. text ≡ check_text_lem input.now even sure) }
{
    let routers = input.routers.len();
    let peerings = input.peerings.len();
    let steps = input.steps.len();
    let mut text = String::new(alloc);
    write!(text, "ok routers {routers}")?;
    write!(text, " peerings {peerings}")?;
    write!(text, " steps {steps}\n")?;
    write!(text, "even {}", yes_or_no(even))?;
    write!(text, " sure {}\n", yes_or_no(sure))?;
    Ok(Items::from_vec(text.into_bytes()))
}
