//! Texts in the form that words ask for: lines, or one JSON object.

ghost use Rattle.std.specs.Prelude.{◌≡◌, IfOk, string_bytes};
ghost use Rattle.node_configs.specs.Accepted.{IsAccepted};
ghost use Rattle.report_json.specs.Values.{json_line};
ghost use Rattle.expect_view.specs.Expect.{all_hold as all_hold_lem, test_text};
ghost use Rattle.expect_json.specs.Verdicts.{test_json as test_json_lem};
ghost use Rattle.lab_top.specs.Forms.{accepted_in as accepted_in_lem, IsReportIn, summary_in as summary_in_lem, test_in, timeline_in as timeline_in_lem};
ghost use Rattle.lab_top.specs.Forms.{show_in as show_in_lem, why_in as why_in_lem};

use bgp_types::Prefix;
use expect_json::test_json;
use expect_view::{TestResult, all_hold, tested};
use graft_edge::{Items, NoMemory, Octets, RouterId};
use lab_answers::{even, sure};
use lab_report::{Lab, check_text, report, summary};
use lab_tables::LabInput;
use lab_words::Form;
use report_json::{check_json, report_json, summary_json};
use show_json::show_json;
use show_view::show_text;
use std::alloc::Global;
use timeline_view::timeline_text;
use view_json::{timeline_json, why_json};
use why_view::why_text;

/// The octets of a text.
pub(crate) fn octets_of(text: String) -> Octets
    ensures { result ≡ string_bytes text }
{
    Items::from_vec(text.into_bytes())
}

/// What a check says of an input that was accepted.
pub(crate) fn accepted_in(alloc: Global, input: &LabInput, form: Form) -> Result<Octets, NoMemory>
    requires { IsAccepted input.now }
    ensures { IfOk result (λ text. text ≡ accepted_in_lem form input.now) }
{
    let even = even(alloc, input)?;
    let sure = sure(alloc, input)?;
    match form {
        Form::Plain => check_text(alloc, input, even, sure),
        Form::Json => check_json(alloc, input, even, sure),
    }
}

/// The report of a run.
pub(crate) fn report_in(alloc: Global, lab: &Lab, form: Form) -> Result<Octets, NoMemory>
    ensures { IfOk result (IsReportIn form lab.now) }
{
    match form {
        Form::Plain => Ok(octets_of(report(alloc, lab)?)),
        Form::Json => report_json(alloc, lab),
    }
}

/// The summary of a run.
pub(crate) fn summary_in(alloc: Global, lab: &Lab, form: Form) -> Result<Octets, NoMemory>
    ensures { IfOk result (λ text. text ≡ summary_in_lem form lab.now) }
{
    match form {
        Form::Plain => Ok(octets_of(summary(alloc, lab)?)),
        Form::Json => summary_json(alloc, lab),
    }
}

/// Which expectations of a run hold, and whether all of them do.
#[derive(Debug, Drop)]
pub(crate) struct Told {
    pub text: Octets,
    pub all_hold: bool,
}

/// Says which expectations of a run hold, in lines.
fn tested_as_text(alloc: Global, lab: &Lab) -> Result<Told, NoMemory>
    ensures text { IfOk result (λ told. told.text ≡ test_text lab.now) }
    ensures all { IfOk result (λ told. told.all_hold ≡ all_hold_lem lab.now) }
{
    let TestResult { text, all_hold } = tested(alloc, lab)?;
    let text = octets_of(text);
    Ok(Told { text, all_hold })
}

/// Says which expectations of a run hold, as one JSON object.
fn tested_as_json(alloc: Global, lab: &Lab) -> Result<Told, NoMemory>
    ensures text { IfOk result (λ told. told.text ≡ json_line (test_json_lem lab.now)) }
    ensures all { IfOk result (λ told. told.all_hold ≡ all_hold_lem lab.now) }
{
    let text = test_json(alloc, lab)?;
    let all_hold = all_hold(alloc, lab)?;
    Ok(Told { text, all_hold })
}

/// Says which expectations of a run hold.
pub(crate) fn tested_in(alloc: Global, lab: &Lab, form: Form) -> Result<Told, NoMemory>
    ensures text { IfOk result (λ told. told.text ≡ test_in form lab.now) }
    ensures all { IfOk result (λ told. told.all_hold ≡ all_hold_lem lab.now) }
{
    match form {
        Form::Plain => tested_as_text(alloc, lab),
        Form::Json => tested_as_json(alloc, lab),
    }
}

/// The timeline of a run.
pub(crate) fn timeline_in(alloc: Global, lab: &Lab, form: Form) -> Result<Octets, NoMemory>
    ensures { IfOk result (λ text. text ≡ timeline_in_lem form lab.now) }
{
    match form {
        Form::Plain => timeline_text(alloc, lab),
        Form::Json => timeline_json(alloc, lab),
    }
}

/// All that there is at the end of a run.
pub(crate) fn show_in(alloc: Global, lab: &Lab, form: Form) -> Result<Octets, NoMemory>
    ensures { IfOk result (λ text. text ≡ show_in_lem form lab.now) }
{
    match form {
        Form::Plain => Ok(octets_of(show_text(alloc, lab)?)),
        Form::Json => show_json(alloc, lab),
    }
}

/// Why a router has its route to a prefix.
pub(crate) fn why_in(
    alloc: Global,
    lab: &Lab,
    router: RouterId,
    prefix: Prefix,
    form: Form,
) -> Result<Octets, NoMemory>
    ensures { IfOk result (λ text. text ≡ why_in_lem form lab.now router.0 prefix) }
{
    match form {
        Form::Plain => Ok(octets_of(why_text(alloc, lab, router, prefix)?)),
        Form::Json => why_json(alloc, lab, router, prefix),
    }
}
