//! Where a run differs from an expectation.

ghost use Rattle.std.specs.Prelude.{◌≡◌, IfOk};
ghost use Rattle.expect_view.specs.Expect.{wanted_value, got_value, difference_of as difference_of_lem, difference as difference_lem};

use crate::values::{is_got, key_name, push_got, push_wanted};
use graft_edge::{Name, NoMemory};
use lab_report::Lab;
use lab_tables::{ExpectedValue, LabInput};
use std::alloc::Global;

/// The first key of an expectation under which the run has another value: the key, the value that is wanted, and what
/// the run has in its place, each as it is written.
#[derive(Debug, Drop)]
pub struct Difference {
    pub key: Name,
    pub wanted: Name,
    pub got: Name,
}

/// The value that is wanted, as it is written.
fn wanted_text(alloc: Global, input: &LabInput, wanted: &ExpectedValue) -> Result<Name, NoMemory>
    ensures { IfOk result (λ text. text ≡ wanted_value input.now wanted.now) }
{
    let mut text = String::new(alloc);
    push_wanted(&mut text, input, wanted)?;
    Ok(Name::from_string(text))
}

/// What the run has in its place, as it is written.
fn got_text(alloc: Global, lab: &Lab, wanted: &ExpectedValue) -> Result<Name, NoMemory>
    ensures { IfOk result (λ text. text ≡ got_value lab.now wanted.now) }
{
    let mut text = String::new(alloc);
    push_got(&mut text, lab, wanted)?;
    Ok(Name::from_string(text))
}

/// Where the run differs from a value that is wanted, if it does.
fn difference_of(
    alloc: Global,
    lab: &Lab,
    wanted: &ExpectedValue,
) -> Result<Option<Difference>, NoMemory>
    ensures { IfOk result (λ found. found ≡ difference_of_lem lab.now wanted.now) }
{
    let value = wanted_text(alloc, &lab.input, wanted)?;
    let got = got_text(alloc, lab, wanted)?;
    if is_got(lab, wanted, got.as_str(), value.as_str()) {
        return Ok(None);
    }
    Ok(Some(Difference {
        key: Name::from_text(alloc, key_name(wanted))?,
        wanted: value,
        got,
    }))
}

/// Returns where a run differs from an expectation: the first of its keys under which the run has another value.
pub fn first_difference(
    alloc: Global,
    lab: &Lab,
    expectation: &[ExpectedValue],
) -> Result<Option<Difference>, NoMemory>
    ensures { IfOk result (λ found. found ≡ difference_lem lab.now expectation.now) }
{
    for wanted in expectation {
        if let Some(found) = difference_of(alloc, lab, wanted)? {
            return Ok(Some(found));
        }
    }
    Ok(None)
}
