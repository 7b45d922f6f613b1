//! What a test says of a run.

ghost use Rattle.std.specs.Prelude.{◌≡◌, ◌≤◌, ◌++◌, not, count_by, if◌then◌else◌, IfOk, OnOk, string_bytes};
ghost use Rattle.std.specs.List.{flat_map, enumerate_from};
ghost use Rattle.expect_view.specs.Expect.{verdict_line, expectation_line, counts_line, holds, all_hold as all_hold_lem, test_text as test_text_lem};
ghost use Rattle.expect_view.specs.Expect.{is_settled as is_settled_lem, test_status as test_status_lem};

use crate::verdict::{Difference, first_difference};
use graft_edge::NoMemory;
use lab_report::{Lab, RunEnd};
use lab_tables::{Expectation, ExpectedValue};
use std::alloc::Global;
use std::fmt::Write;

/// What a test says of a run: a line for each expectation and one that counts them, and whether all of them hold.
#[derive(Debug, Drop)]
pub struct TestResult {
    pub text: String,
    pub all_hold: bool,
}

/// The line of an expectation that doesn't hold.
fn push_failed(text: &mut String, number: usize, difference: &Difference) -> Result<(), NoMemory>
    ensures { OnOk result (string_bytes text.new ≡ string_bytes text.old ++ verdict_line number (Some difference.now)) }
{
    write!(text, "failed {number} wanted ")?;
    text.push_str(difference.key.as_str())?;
    text.push_str(" ")?;
    text.push_str(difference.wanted.as_str())?;
    text.push_str(" got ")?;
    text.push_str(difference.got.as_str())?;
    text.push_str("\n")?;
    Ok(())
}

/// The line of an expectation, given where the run differs from it.
fn push_verdict(
    text: &mut String,
    number: usize,
    found: &Option<Difference>,
) -> Result<(), NoMemory>
    ensures { OnOk result (string_bytes text.new ≡ string_bytes text.old ++ verdict_line number found.now) }
{
    match found {
        Some(difference) => push_failed(text, number, difference)?,
        None => write!(text, "ok {number}\n")?,
    }
    Ok(())
}

/// How many expectations fail of one, given whether the run differs from it.
fn count_of(differs: bool) -> usize
    ensures count { result ≡ (if differs then 1 else 0) }
    ensures few { result ≤ 1 }
{
    if differs { 1 } else { 0 }
}

/// Adds the line of the expectation at an index, and returns how many failed: one or none.
fn push_expectation(
    text: &mut String,
    alloc: Global,
    lab: &Lab,
    index: usize,
    expectation: &[ExpectedValue],
) -> Result<usize, NoMemory>
    requires { index < 2 ^ 64 - 1 }
    ensures text { OnOk result (string_bytes text.new ≡ string_bytes text.old ++ expectation_line lab.now (index, expectation.now)) }
    ensures failed { IfOk result (λ failed. failed ≡ (if holds lab.now expectation.now then 0 else 1)) }
    ensures few { IfOk result (λ failed. failed ≤ 1) }
{
    let found = first_difference(alloc, lab, expectation)?;
    push_verdict(text, index + 1, &found)?;
    Ok(count_of(found.is_some()))
}

/// Adds the lines of expectations, and returns how many failed.
fn push_expectations(
    text: &mut String,
    alloc: Global,
    lab: &Lab,
    expects: &[Expectation],
) -> Result<usize, NoMemory>
    ensures text { OnOk result (string_bytes text.new ≡ string_bytes text.old ++ flat_map (expectation_line lab.now) (enumerate_from 0 expects.now)) }
    ensures failed { IfOk result (λ failed. failed ≡ count_by (λ expectation. not (holds lab.now expectation)) expects.now) }
{
    let mut failed = 0usize;
    for (index, expectation) in expects.iter().enumerate() {
        let more = push_expectation(text, alloc, lab, index, expectation.as_slice())?;
        failed += more;
    }
    Ok(failed)
}

/// The line that counts expectations.
fn push_counts(text: &mut String, expectations: usize, failed: usize) -> Result<(), NoMemory>
    ensures { OnOk result (string_bytes text.new ≡ string_bytes text.old ++ counts_line expectations failed) }
{
    write!(text, "expectations {expectations} failed {failed}\n")?;
    Ok(())
}

/// Tests a run: returns a line for each expectation of its input, in their order, and one that counts them, and whether
/// all of them hold.
pub fn tested(alloc: Global, lab: &Lab) -> Result<TestResult, NoMemory>
    ensures text { IfOk result (λ tested. string_bytes tested.text ≡ test_text_lem lab.now) }
    ensures all { IfOk result (λ tested. tested.all_hold ≡ all_hold_lem lab.now) }
{
    let mut text = String::new(alloc);
    let expects = lab.input.expects.as_slice();
    let failed = push_expectations(&mut text, alloc, lab, expects)?;
    push_counts(&mut text, expects.len(), failed)?;
    Ok(TestResult {
        text,
        all_hold: failed == 0,
    })
}

/// Whether an expectation holds.
#[tactic(auto, using(crate::proofs::Counts::differs))]
fn does_hold(alloc: Global, lab: &Lab, expectation: &[ExpectedValue]) -> Result<bool, NoMemory>
    ensures { IfOk result (λ held. held ≡ holds lab.now expectation.now) }
{
    let found = first_difference(alloc, lab, expectation)?;
    Ok(found.is_none())
}

/// Returns whether all expectations of a run hold. It says nothing of them.
pub fn all_hold(alloc: Global, lab: &Lab) -> Result<bool, NoMemory>
    ensures { IfOk result (λ all. all ≡ all_hold_lem lab.now) }
{
    let expects = lab.input.expects.as_slice();
    for expectation in expects {
        if !does_hold(alloc, lab, expectation.as_slice())? {
            return Ok(false);
        }
    }
    Ok(true)
}

fn is_settled(end: RunEnd) -> bool
    ensures { result ≡ is_settled_lem end }
{
    match end {
        RunEnd::Settled => true,
        _ => false,
    }
}

/// Returns the status of a test, given that of the run: 9 if the run is settled and an expectation doesn't hold, and else
/// that of the run.
pub fn test_status(of_run: u8, end: RunEnd, all_hold: bool) -> u8
    ensures { result ≡ test_status_lem of_run end all_hold }
{
    if is_settled(end) && !all_hold {
        return 9;
    }
    of_run
}

ghost use Rattle.std.specs.Prelude.{◌+◌, ◌-◌, ◌^◌, ◌<◌, Some};
