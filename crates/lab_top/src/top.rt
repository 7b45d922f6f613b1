//! The program's top call.

ghost use Rattle.std.specs.Prelude.{◌≡◌, ◌⊎◌, ℕ, List, Option, None, IsSome, IsSomeAnd, IfSome, OnSome};
ghost use Rattle.graft_edge.specs.Outside.{FaultRose, Appended, AppendedFront};
ghost use Rattle.lab_words.specs.declared.job.Form.{Form};
ghost use Rattle.lab_words.specs.declared.job.Job.TheVariants.{Make};
ghost use Rattle.lab_words.specs.Asked.{Asks, HasNumbers};
ghost use Rattle.lab_words.specs.Hints.{refused_text as refused_text_lem};
ghost use Rattle.lab_make.specs.Made.{made};
ghost use Rattle.lab_input.specs.Labs.{InputOf};
ghost use Rattle.lab_run.specs.Runs.{RanLab};
ghost use Rattle.lab_top.specs.Forms.{summary_in, test_in};
ghost use Rattle.lab_top.specs.declared.views.ViewName.{ViewName};
ghost use Rattle.lab_top.specs.Ends.{AreRefused, AskToCheck, AskToRun, AskForJournal, AskForCapture, AskToAudit, AskToImport, AskToTest, AskToView};
ghost use Rattle.lab_top.specs.Ends.{RunsSource, AskToSum, AskToDrill, AskForLab, AskToMake, AskForLine, AskUnread, TookInput, GaveBadInput, IsStatus};
ghost use Rattle.lab_top.specs.Ends.{WritesText, WritesReport, WritesJournal, WritesCapture, WritesView};
ghost use Rattle.lab_top.specs.Ends.{Audits, Checks, Imports, end_status, tested_status, HasFailed};
ghost use Rattle.lab_top.specs.Cases.{outside, ReadsSource, DidOr, EndsOr, Ended};

use crate::audit::audit_job;
use crate::finish::{DONE, Finish, NO_MEMORY, USAGE, end_with, without_run};
use crate::imports::import_job;
use crate::jobs::{
    capture_job, check_job, drill_job, journal_job, make_job, run_job, test_job, view_job,
};
use crate::views::ViewName;
use graft_edge::{Gate, NoMemory, Sink, Source, Words};
use lab_words::{Job, USAGE_TEXT, VERSION_TEXT, WordStop, read_words, refused_text};
use std::thread::Threads;

/// Does a job. If memory runs out, nothing was written.
fn do_job<R: Threads + Sync + AllocGlobal, S: Source, K: Sink, G: Gate>(
    rt: &R,
    job: Job,
    source: &mut S,
    sink: &mut K,
    gate: &G,
) -> Result<Finish, NoMemory>
    requires { HasNumbers job }
    ensures unread { ¬ (ReadsSource job) → source.new ≡ source.old }
    ensures did { DidOr job (outside (S.left source.old) (S.faults source.old) (K.written sink.old) (K.faults sink.old))
        (outside (S.left source.new) (S.faults source.new) (K.written sink.new) (K.faults sink.new)) result }
{
    let alloc = rt.alloc();
    match job {
        Job::Run { workers, form } => run_job(rt, source, sink, workers, form, gate),
        Job::Check { form } => check_job(alloc, source, sink, form),
        Job::Make { seed } => make_job(alloc, sink, seed),
        Job::Drill {
            seed,
            workers,
            form,
        } => drill_job(rt, sink, seed, workers, form, gate),
        Job::Journal { workers } => journal_job(rt, source, sink, workers, gate),
        Job::Audit => audit_job(alloc, source, sink),
        Job::Capture { workers } => capture_job(rt, source, sink, workers, gate),
        Job::Import { home } => import_job(alloc, source, sink, home),
        Job::Timeline { workers, form } => {
            view_job(rt, source, sink, ViewName::Timeline(form), workers, gate)
        }
        Job::Show { workers, form } => {
            view_job(rt, source, sink, ViewName::Show(form), workers, gate)
        }
        Job::Story { peering, workers } => {
            view_job(rt, source, sink, ViewName::Story(peering), workers, gate)
        }
        Job::Why {
            router,
            prefix,
            workers,
            form,
        } => view_job(
            rt,
            source,
            sink,
            ViewName::Why(router, prefix, form),
            workers,
            gate,
        ),
        Job::Picture { workers } => { view_job(rt, source, sink, ViewName::Picture, workers, gate) }
        Job::Test { workers, form } => test_job(rt, source, sink, workers, form, gate),
        Job::Help => Ok(end_with(sink, USAGE_TEXT.as_bytes(), DONE, None)),
        Job::Version => Ok(end_with(sink, VERSION_TEXT.as_bytes(), DONE, None)),
    }
}

/// Does what the words ask for. If memory runs out, nothing was written.
fn do_words<R: Threads + Sync + AllocGlobal, S: Source, K: Sink, G: Gate>(
    rt: &R,
    words: &Words,
    source: &mut S,
    sink: &mut K,
    gate: &G,
) -> Result<Finish, NoMemory>
    ensures unread { AskUnread words.now → source.new ≡ source.old }
    ensures ended { EndsOr words.now (outside (S.left source.old) (S.faults source.old) (K.written sink.old) (K.faults sink.old))
        (outside (S.left source.new) (S.faults source.new) (K.written sink.new) (K.faults sink.new)) result }
{
    match read_words(rt.alloc(), words) {
        Ok(job) => do_job(rt, job, source, sink, gate),
        Err(WordStop::Usage) => {
            let text = refused_text(rt.alloc(), words)?;
            Ok(end_with(sink, &text, USAGE, None))
        }
        Err(WordStop::NoMemory) => Err(NoMemory),
    }
}

/// How the command ends that the words are.
fn finish_of<R: Threads + Sync + AllocGlobal, S: Source, K: Sink, G: Gate>(
    rt: &R,
    words: &Words,
    source: &mut S,
    sink: &mut K,
    gate: &G,
) -> Finish
    ensures unread { AskUnread words.now → source.new ≡ source.old }
    ensures ended { Ended words.now (outside (S.left source.old) (S.faults source.old) (K.written sink.old) (K.faults sink.old))
        (outside (S.left source.new) (S.faults source.new) (K.written sink.new) (K.faults sink.new)) result.status result.lab }
{
    match do_words(rt, words, source, sink, gate) {
        Ok(finish) => finish,
        Err(_) => without_run(NO_MEMORY),
    }
}

/// Does what the words of a command ask for. `run` reads an input from the source to its end, runs it and
/// writes the report to the sink; each actor's turn passes the gate first. `journal` writes the input and the
/// journal of its run in place of a report, `capture` a pcap file of what taps at the links of its remotes see,
/// `show`, `timeline`, `why`, `story` and `picture` write a view of it, and `test` writes which expectations of the
/// input hold of it. `check` reads an input and writes whether it is one.
/// `audit` reads such a text of an input and a journal, and writes whether some run has that journal. `import` reads a
/// capture of sessions, pcap or pcapng, and writes the laboratory that has them.
/// With `--json` what `check`, `run`, `drill`, `show`, `timeline`, `why` and `test` write is one JSON object.
/// `make` writes the laboratory of a seed; `drill` runs it and writes the summary. `--help` writes the usage, and
/// `--version` the version. Other words are refused with the usage and a hint.
pub fn graft_main<R, S, K, G>(
    rt: &R,
    words: &Words,
    source: &mut S,
    sink: &mut K,
    gate: &G,
) -> Finish
where
    R: Threads + Sync + AllocGlobal,
    S: Source,
    K: Sink,
    G: Gate,
    ensures statuses { IsStatus result.status }

    // Words that ask for no job are refused with the usage and a hint. The source isn't read for them, nor for `make`, `drill`, `--help` and `--version`.
    ensures usage { AreRefused words.now
        → (result.status ≡ 6) ⊎ WritesText (refused_text_lem words.now) 1
        (K.faults sink.old) (K.faults sink.new) (K.written sink.old) (K.written sink.new) result.status }
    ensures refused { result.status ≡ 1 → AreRefused words.now }
    ensures unread { AskUnread words.now → source.new ≡ source.old }

    // `make` writes the laboratory of its seed.
    ensures made { (seed : ℕ) → Asks words.now (Make seed)
        → (result.status ≡ 6) ⊎ WritesText (made seed) 0 (K.faults sink.old) (K.faults sink.new) (K.written sink.old) (K.written sink.new) result.status }

    // `--help` writes the usage line, and `--version` the version line.
    ensures told { (line : List ℕ) → AskForLine words.now line
        → (result.status ≡ 6) ⊎ WritesText line 0 (K.faults sink.old) (K.faults sink.new) (K.written sink.old) (K.written sink.new) result.status }

    // `check` reads the source to its end, or past the most bytes of an input, and says what was read.
    ensures checked { (form : Form) → AskToCheck words.now form → (result.status ≡ 4) ⊎ (result.status ≡ 6)
        ⊎ Checks form (S.left source.old) (S.left source.new) (K.faults sink.old) (K.faults sink.new) (K.written sink.old) (K.written sink.new) result.status }

    // `audit` reads the source to its end, or past the most bytes of a journal's text, and says whether a run has that journal.
    // Status 8 is that of a journal that no run has.
    ensures audited { AskToAudit words.now → (result.status ≡ 4) ⊎ (result.status ≡ 6)
        ⊎ Audits (S.left source.old) (S.left source.new) (K.faults sink.old) (K.faults sink.new) (K.written sink.old) (K.written sink.new) result.status }
    ensures denied { result.status ≡ 8 → AskToAudit words.now }

    // `import` reads the source to its end, or past the most octets of a capture, and writes a laboratory in which each remote
    // says just the octets that it says in the capture; or its first fault.
    ensures imported { (home : Option ℕ) → AskToImport words.now home → (result.status ≡ 4) ⊎ (result.status ≡ 6)
        ⊎ Imports home (S.left source.old) (S.left source.new) (K.faults sink.old) (K.faults sink.new) (K.written sink.old) (K.written sink.new) result.status }

    // An input is refused only where the bytes are none, or none that can be run yet, or where it hasn't the router or
    // peering of a view, or where the text that is to be audited is no journal, or what is to be imported isn't, and then a
    // line says why, and mostly a hint what is wanted.
    ensures bad_input { result.status ≡ 2
        → (text : _) × GaveBadInput words.now (S.left source.old) (S.left source.new) text × Appended (K.written sink.old) (K.written sink.new) text }
    ensures bad_input_unwritten { AskForLab words.now → result.status ≡ 5 → result.lab ≡ None
        → (text : _) × GaveBadInput words.now (S.left source.old) (S.left source.new) text × AppendedFront (K.written sink.old) (K.written sink.new) text }

    // A read or a write failed only where its count of faults shows it.
    ensures read_failed { result.status ≡ 4 → FaultRose (S.faults source.old) (S.faults source.new) }
    ensures write_failed { result.status ≡ 5 → FaultRose (K.faults sink.old) (K.faults sink.new) }
    ensures nothing_written { (result.status ≡ 4) ⊎ (result.status ≡ 6) → K.written sink.new ≡ K.written sink.old }

    // Status 9 is that of a test, where the run is settled and an expectation doesn't hold.
    ensures failed { result.status ≡ 9 → ((form : Form) × AskToTest words.now form) × IsSomeAnd result.lab HasFailed }

    // A run is there only where it was asked for, came to its end and its text was built: it is the run of the
    // bytes that were read, or of the laboratory of the seed.
    ensures ended { AskForLab words.now → (result.status ≡ 0) ⊎ (result.status ≡ 3) ⊎ (result.status ≡ 7) ⊎ (result.status ≡ 9)
        → IsSome result.lab }
    ensures no_run { AreRefused words.now ⊎ AskToMake words.now ⊎ ((form : Form) × AskToCheck words.now form)
        ⊎ AskToAudit words.now ⊎ ((home : Option ℕ) × AskToImport words.now home) ⊎ ((line : List ℕ) × AskForLine words.now line) → result.lab ≡ None }
    ensures ran { OnSome result.lab (AskForLab words.now
        × ((result.status ≡ 0) ⊎ (result.status ≡ 3) ⊎ (result.status ≡ 5) ⊎ (result.status ≡ 7) ⊎ (result.status ≡ 9))) }
    ensures input { IfSome result.lab (λ lab. RunsSource words.now → TookInput (S.left source.old) (S.left source.new) lab.input) }
    ensures drilled { IfSome result.lab (λ lab. (seed : ℕ) → AskToDrill words.now seed → InputOf (made seed) lab.input) }

    // Its journal is that of a run of the input's laboratory, whatever its workers and links did, and the lab is
    // what is seen of the world that the run leads to. At every moment each peering has one session, held by one
    // router or one moving capsule, with one legal story of which the bytes each way are the first part, and a refused
    // graft leaves it unchanged. A source clears a moved session's routes only when it has heard what its target chose
    // in their place. Between any two marks each actor did what a round asks of it (`RealRounds`). Where the run is
    // settled, every table solves the decision equations for the placement after the accepted grafts; and a packet, to
    // whatever address and from whichever router, meets at most two routers and leaves only where that peering's session is.
    ensures headline { IfSome result.lab RanLab }

    // Its text is written whole, under the status of its end, or a write failed and a front of it stands: a report,
    // which ends with where packets go to the addresses of the input, a summary, the input with the journal behind it,
    // a capture of what taps at the links of the remotes see, or a view: a timeline, all that there is at its end, the
    // story of a peering's session, why a router has its route to a prefix, or a picture; each in the form that is asked
    // for. Of a test it is which expectations of the input hold, and the status is 9 where the run is settled and one of
    // them doesn't.
    ensures reported { IfSome result.lab (λ lab. (form : Form) → AskToRun words.now form
        → WritesReport lab form (K.faults sink.old) (K.faults sink.new) (K.written sink.old) (K.written sink.new) result.status) }
    ensures summed { IfSome result.lab (λ lab. (form : Form) → ((seed : ℕ) × AskToSum words.now seed form) → WritesText (summary_in form lab)
        (end_status lab.end) (K.faults sink.old) (K.faults sink.new) (K.written sink.old) (K.written sink.new) result.status) }
    ensures journaled { IfSome result.lab (λ lab. AskForJournal words.now → WritesJournal (S.left source.old)
        (S.left source.new) lab (K.faults sink.old) (K.faults sink.new) (K.written sink.old) (K.written sink.new) result.status) }
    ensures captured { IfSome result.lab (λ lab. AskForCapture words.now
        → WritesCapture lab (K.faults sink.old) (K.faults sink.new) (K.written sink.old) (K.written sink.new) result.status) }
    ensures tested { IfSome result.lab (λ lab. (form : Form) → AskToTest words.now form
        → WritesText (test_in form lab) (tested_status lab) (K.faults sink.old) (K.faults sink.new) (K.written sink.old) (K.written sink.new) result.status) }
    ensures viewed { IfSome result.lab (λ lab. (name : ViewName) → AskToView words.now name
        → WritesView lab name (K.faults sink.old) (K.faults sink.new) (K.written sink.old) (K.written sink.new) result.status) }
{
    finish_of(rt, words, source, sink, gate)
}
