//! What each job does.

ghost use Rattle.std.specs.Prelude.{◌≡◌, ◌≤◌, ◌<◌, ◌++◌, ℕ, List, Option, IfOk};
ghost use Rattle.lab_words.specs.declared.job.Job.TheVariants.{Run, Check, Make, Drill, Journal, Capture, Test};
ghost use Rattle.lab_input.specs.Labs.{too_long as too_long_bad};
ghost use Rattle.lab_hints.specs.Hints.{hint_line, long_words};
ghost use Rattle.lab_report.specs.BadText.{bad_line};
ghost use Rattle.node_configs.specs.Accepted.{IsAccepted};
ghost use Rattle.expect_view.specs.Expect.{test_status as test_status_lem};
ghost use Rattle.lab_top.specs.Ends.{unknown_text as unknown_text_lem, end_status};
ghost use Rattle.lab_top.specs.Views.{viewing};
ghost use Rattle.lab_top.specs.Cases.{outside, stop_with as stop_with_lem, BytesOrStops, ReadsOrStops, AnswersOrStops, BuiltOr, EndsRun};
ghost use Rattle.lab_top.specs.Cases.{EndsUnbuilt, StopsFor, DidOr};

use crate::built::is_built;
use crate::finish::{
    BAD_INPUT, DONE, Finish, InputStop, LIMIT, READ_FAILED, UNSETTLED, end_with, without_run,
};
use crate::forms::{accepted_in, report_in, summary_in, tested_in};
use crate::views::{ViewName, view_named, view_text};
use expect_view::test_status;
use graft_edge::{Gate, Name, NoMemory, Octets, ReadStop, Sink, Source, read_all};
use journal_form::journal_text;
use lab_audit::refusal;
use lab_capture::capture_octets;
use lab_hints::{long_hint, name_hint};
use lab_input::{BadInput, LabInput, LabStop, MOST_BYTES, read_lab, too_long};
use lab_make::make_lab;
use lab_report::{Lab, RunEnd, bad_text};
use lab_run::run_lab;
use lab_words::Form;
use std::alloc::Global;
use std::thread::Threads;

const NOT_BUILT_TEXT: &str =
    "bad input: not built\nhint: a router with by_bytes can be checked, and not run yet\n";

/// What is said of a source that has more bytes than an input: its fault, and a hint.
fn too_long_text(alloc: Global) -> Result<Octets, NoMemory>
    ensures { IfOk result (λ text. text ≡ bad_line too_long_bad ++ hint_line long_words) }
{
    let bad = too_long(alloc)?;
    let mut text = bad_text(alloc, &bad)?;
    let hint = long_hint(alloc)?;
    text.extend(&hint)?;
    Ok(text)
}

/// What is said of an input that hasn't the router or peering of a name: the name, and a hint.
fn unknown_text(alloc: Global, input: &LabInput, name: Name) -> Result<Octets, NoMemory>
    ensures { IfOk result (λ text. text ≡ unknown_text_lem input.now name) }
{
    let hint = name_hint(alloc, input, name.as_str())?;
    let mut text = bad_text(alloc, &BadInput::Unknown(name))?;
    text.extend(&hint)?;
    Ok(text)
}

/// The stop of a source whose bytes are refused with a text.
fn stop_with(text: Result<Octets, NoMemory>) -> InputStop
    ensures { result ≡ stop_with_lem text }
{
    match text {
        Ok(text) => InputStop::Bad(text),
        Err(_) => InputStop::NoMemory,
    }
}

/// All bytes of a source, if there are no more than an input may have.
fn read_bytes<S: Source>(alloc: Global, source: &mut S) -> Result<Octets, InputStop>
    ensures { BytesOrStops (S.left source.old) (S.left source.new) (S.faults source.old) (S.faults source.new) result }
{
    match read_all(alloc, source, MOST_BYTES) {
        Ok(bytes) => Ok(bytes),
        Err(ReadStop::Failed) => Err(InputStop::Failed),
        Err(ReadStop::TooLong) => Err(stop_with(too_long_text(alloc))),
        Err(ReadStop::NoMemory) => Err(InputStop::NoMemory),
    }
}

/// The input that the bytes are.
fn input_in(alloc: Global, bytes: &[u8]) -> Result<LabInput, InputStop>
    ensures { AnswersOrStops bytes.now result }
{
    match read_lab(alloc, bytes) {
        Ok(input) => Ok(input),
        Err(LabStop::Bad(bad)) => Err(stop_with(refusal(alloc, bytes, &bad))),
        Err(LabStop::NoMemory) => Err(InputStop::NoMemory),
    }
}

/// What the bytes of a source are read as.
fn read_source<S: Source>(alloc: Global, source: &mut S) -> Result<LabInput, InputStop>
    ensures { ReadsOrStops (S.left source.old) (S.left source.new) (S.faults source.old) (S.faults source.new) result }
{
    match read_bytes(alloc, source) {
        Ok(bytes) => input_in(alloc, &bytes),
        Err(stop) => Err(stop),
    }
}

/// Ends a job whose source gave no input.
fn end_stopped<K: Sink>(sink: &mut K, stop: InputStop) -> Result<Finish, NoMemory>
    ensures { StopsFor stop (K.faults sink.old) (K.faults sink.new) (K.written sink.old) (K.written sink.new) result }
{
    match stop {
        InputStop::Bad(text) => Ok(end_with(sink, &text, BAD_INPUT, None)),
        InputStop::Failed => Ok(without_run(READ_FAILED)),
        InputStop::NoMemory => Err(NoMemory),
    }
}

/// The status under which the report of a run is written.
fn status_of(end: RunEnd) -> u8
    ensures { result ≡ end_status end }
{
    match end {
        RunEnd::Settled => DONE,
        RunEnd::Unsettled { .. } => UNSETTLED,
        RunEnd::StreamFull { .. } | RunEnd::JournalFull { .. } => LIMIT,
    }
}

/// Writes a text of a run under the status of its end.
fn end_run<K: Sink>(sink: &mut K, text: &[u8], lab: Lab) -> Finish
    ensures { EndsRun text.now (end_status lab.end) lab (K.faults sink.old) (K.faults sink.new) (K.written sink.old) (K.written sink.new) result }
{
    let status = status_of(lab.end);
    end_with(sink, text, status, Some(lab))
}

/// Writes which expectations of a run hold, under the status that it has where all of them hold or one doesn't.
fn end_test<K: Sink>(sink: &mut K, text: &[u8], all_hold: bool, lab: Lab) -> Finish
    ensures { EndsRun text.now (test_status_lem (end_status lab.end) lab.end all_hold) lab (K.faults sink.old) (K.faults sink.new)
        (K.written sink.old) (K.written sink.new) result }
{
    let status = test_status(status_of(lab.end), lab.end, all_hold);
    end_with(sink, text, status, Some(lab))
}

/// Refuses an input that can't be run yet.
fn end_unbuilt<K: Sink>(sink: &mut K) -> Finish
    ensures { EndsUnbuilt (K.faults sink.old) (K.faults sink.new) (K.written sink.old) (K.written sink.new) result }
{
    end_with(sink, NOT_BUILT_TEXT.as_bytes(), BAD_INPUT, None)
}

/// Runs an input, if the program can.
fn run_built<R: Threads + Sync + AllocGlobal, G: Gate>(
    rt: &R,
    input: LabInput,
    workers: usize,
    gate: &G,
) -> Result<Option<Lab>, NoMemory>
    requires accepted { IsAccepted input }
    requires workers { (1 ≤ workers) × (workers ≤ 8) }
    ensures { BuiltOr input result }
{
    if !is_built(&input) {
        return Ok(None);
    }
    let lab = run_lab(rt, rt.alloc(), input, workers, gate)?;
    Ok(Some(lab))
}

/// Reads an input from the source, runs it and writes the report.
pub(crate) fn run_job<R: Threads + Sync + AllocGlobal, S: Source, K: Sink, G: Gate>(
    rt: &R,
    source: &mut S,
    sink: &mut K,
    workers: usize,
    form: Form,
    gate: &G,
) -> Result<Finish, NoMemory>
    requires workers { (1 ≤ workers) × (workers ≤ 8) }
    ensures { DidOr (Run workers form) (outside (S.left source.old) (S.faults source.old) (K.written sink.old)
        (K.faults sink.old)) (outside (S.left source.new) (S.faults source.new) (K.written sink.new) (K.faults sink.new)) result }
{
    let alloc = rt.alloc();
    let input = match read_source(alloc, source) {
        Ok(input) => input,
        Err(stop) => return end_stopped(sink, stop),
    };
    match run_built(rt, input, workers, gate)? {
        Some(lab) => {
            let text = report_in(alloc, &lab, form)?;
            Ok(end_run(sink, &text, lab))
        }
        None => Ok(end_unbuilt(sink)),
    }
}

/// Reads an input from the source, runs it and writes it with its journal.
pub(crate) fn journal_job<R: Threads + Sync + AllocGlobal, S: Source, K: Sink, G: Gate>(
    rt: &R,
    source: &mut S,
    sink: &mut K,
    workers: usize,
    gate: &G,
) -> Result<Finish, NoMemory>
    requires workers { (1 ≤ workers) × (workers ≤ 8) }
    ensures { DidOr (Journal workers) (outside (S.left source.old) (S.faults source.old) (K.written sink.old)
        (K.faults sink.old)) (outside (S.left source.new) (S.faults source.new) (K.written sink.new) (K.faults sink.new)) result }
{
    let alloc = rt.alloc();
    let bytes = match read_bytes(alloc, source) {
        Ok(bytes) => bytes,
        Err(stop) => return end_stopped(sink, stop),
    };
    let input = match input_in(alloc, &bytes) {
        Ok(input) => input,
        Err(stop) => return end_stopped(sink, stop),
    };
    match run_built(rt, input, workers, gate)? {
        Some(lab) => {
            let text = journal_text(alloc, &bytes, lab.journal.as_slice())?;
            Ok(end_run(sink, &text, lab))
        }
        None => Ok(end_unbuilt(sink)),
    }
}

/// Reads an input from the source, runs it and writes a capture of the run.
pub(crate) fn capture_job<R: Threads + Sync + AllocGlobal, S: Source, K: Sink, G: Gate>(
    rt: &R,
    source: &mut S,
    sink: &mut K,
    workers: usize,
    gate: &G,
) -> Result<Finish, NoMemory>
    requires workers { (1 ≤ workers) × (workers ≤ 8) }
    ensures { DidOr (Capture workers) (outside (S.left source.old) (S.faults source.old) (K.written sink.old)
        (K.faults sink.old)) (outside (S.left source.new) (S.faults source.new) (K.written sink.new) (K.faults sink.new)) result }
{
    let alloc = rt.alloc();
    let input = match read_source(alloc, source) {
        Ok(input) => input,
        Err(stop) => return end_stopped(sink, stop),
    };
    match run_built(rt, input, workers, gate)? {
        Some(lab) => {
            let octets = capture_octets(alloc, &lab)?;
            Ok(end_run(sink, &octets, lab))
        }
        None => Ok(end_unbuilt(sink)),
    }
}

/// Reads an input from the source, runs it and writes a view of the run.
pub(crate) fn view_job<R: Threads + Sync + AllocGlobal, S: Source, K: Sink, G: Gate>(
    rt: &R,
    source: &mut S,
    sink: &mut K,
    view: ViewName,
    workers: usize,
    gate: &G,
) -> Result<Finish, NoMemory>
    requires workers { (1 ≤ workers) × (workers ≤ 8) }
    ensures { DidOr (viewing view workers) (outside (S.left source.old) (S.faults source.old) (K.written sink.old)
        (K.faults sink.old)) (outside (S.left source.new) (S.faults source.new) (K.written sink.new) (K.faults sink.new)) result }
{
    let alloc = rt.alloc();
    let input = match read_source(alloc, source) {
        Ok(input) => input,
        Err(stop) => return end_stopped(sink, stop),
    };
    let view = match view_named(&input, view) {
        Ok(view) => view,
        Err(name) => {
            let text = unknown_text(alloc, &input, name)?;
            return Ok(end_with(sink, &text, BAD_INPUT, None));
        }
    };
    match run_built(rt, input, workers, gate)? {
        Some(lab) => {
            let text = view_text(alloc, &lab, view)?;
            Ok(end_run(sink, &text, lab))
        }
        None => Ok(end_unbuilt(sink)),
    }
}

/// Reads an input from the source, runs it and writes which of its expectations hold.
pub(crate) fn test_job<R: Threads + Sync + AllocGlobal, S: Source, K: Sink, G: Gate>(
    rt: &R,
    source: &mut S,
    sink: &mut K,
    workers: usize,
    form: Form,
    gate: &G,
) -> Result<Finish, NoMemory>
    requires workers { (1 ≤ workers) × (workers ≤ 8) }
    ensures { DidOr (Test workers form) (outside (S.left source.old) (S.faults source.old) (K.written sink.old)
        (K.faults sink.old)) (outside (S.left source.new) (S.faults source.new) (K.written sink.new) (K.faults sink.new)) result }
{
    let alloc = rt.alloc();
    let input = match read_source(alloc, source) {
        Ok(input) => input,
        Err(stop) => return end_stopped(sink, stop),
    };
    match run_built(rt, input, workers, gate)? {
        Some(lab) => {
            let told = tested_in(alloc, &lab, form)?;
            Ok(end_test(sink, &told.text, told.all_hold, lab))
        }
        None => Ok(end_unbuilt(sink)),
    }
}

/// Runs the laboratory of a seed and writes the summary.
pub(crate) fn drill_job<R: Threads + Sync + AllocGlobal, K: Sink, G: Gate>(
    rt: &R,
    sink: &mut K,
    seed: u32,
    workers: usize,
    form: Form,
    gate: &G,
) -> Result<Finish, NoMemory>
    requires lowest { 1 ≤ seed }
    requires highest { seed ≤ 9999 }
    requires workers { (1 ≤ workers) × (workers ≤ 8) }
    ensures { (left : Option (List ℕ)) (faults : ℕ) → DidOr (Drill seed workers form) (outside left faults (K.written sink.old) (K.faults sink.old))
        (outside left faults (K.written sink.new) (K.faults sink.new)) result }
{
    let alloc = rt.alloc();
    let bytes = make_lab(alloc, seed)?;
    let input = match input_in(alloc, &bytes) {
        Ok(input) => input,
        Err(stop) => return end_stopped(sink, stop),
    };
    match run_built(rt, input, workers, gate)? {
        Some(lab) => {
            let text = summary_in(alloc, &lab, form)?;
            Ok(end_run(sink, &text, lab))
        }
        None => Ok(end_unbuilt(sink)),
    }
}

/// Reads an input from the source and writes whether it is one.
pub(crate) fn check_job<S: Source, K: Sink>(
    alloc: Global,
    source: &mut S,
    sink: &mut K,
    form: Form,
) -> Result<Finish, NoMemory>
    ensures { DidOr (Check form) (outside (S.left source.old) (S.faults source.old) (K.written sink.old)
        (K.faults sink.old)) (outside (S.left source.new) (S.faults source.new) (K.written sink.new) (K.faults sink.new)) result }
{
    let input = match read_source(alloc, source) {
        Ok(input) => input,
        Err(stop) => return end_stopped(sink, stop),
    };
    let text = accepted_in(alloc, &input, form)?;
    Ok(end_with(sink, &text, DONE, None))
}

/// Writes the laboratory of a seed.
pub(crate) fn make_job<K: Sink>(alloc: Global, sink: &mut K, seed: u32) -> Result<Finish, NoMemory>
    requires lowest { 1 ≤ seed }
    requires highest { seed ≤ 9999 }
    ensures { (left : Option (List ℕ)) (faults : ℕ) → DidOr (Make seed) (outside left faults (K.written sink.old) (K.faults sink.old))
        (outside left faults (K.written sink.new) (K.faults sink.new)) result }
{
    let text = make_lab(alloc, seed)?;
    Ok(end_with(sink, &text, DONE, None))
}
