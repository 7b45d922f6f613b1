//! The jobs, one row each: its name, and what stands beside it.

ghost use Rattle.std.specs.Prelude.{◌≡◌, option_map};
ghost use Rattle.lab_words.specs.Asked.{IsJob, given_by};
ghost use Rattle.lab_words.specs.Reading.{Answers, plain, workers_alone, check_with, audit_with, home_with, import_with};
ghost use Rattle.lab_words.specs.Reading.{make_with, drill_with, story_with, why_with, job_named};

use crate::arguments::{Arguments, arguments_in};
use crate::job::{Form, Job, WordStop};
use bgp_types::Prefix;
use graft_edge::Name;
use std::alloc::Global;

/// Returns the number of workers, 2 if none is given, where nothing else is.
fn workers_alone(
    subject: Option<Name>,
    prefix: Option<Prefix>,
    workers: Option<usize>,
) -> Option<usize>
    ensures { result ≡ workers_alone subject prefix workers }
{
    match (subject, prefix) {
        (None, None) => Some(workers.unwrap_or(2)),
        _ => None,
    }
}

/// Returns a job that writes text alone, if text is asked for.
fn plain(form: Form, job: Option<Job>) -> Option<Job>
    ensures { result ≡ plain form job }
{
    match form {
        Form::Plain => job,
        Form::Json => None,
    }
}

/// Returns the job `check`, beside which nothing stands but a form.
fn check_with(
    subject: Option<Name>,
    prefix: Option<Prefix>,
    workers: Option<usize>,
    form: Form,
) -> Option<Job>
    ensures { result ≡ check_with subject prefix workers form }
{
    match (subject, prefix, workers) {
        (None, None, None) => Some(Job::Check { form }),
        _ => None,
    }
}

/// Returns the job `audit`, beside which nothing stands.
fn audit_with(subject: Option<Name>, prefix: Option<Prefix>, workers: Option<usize>) -> Option<Job>
    ensures { result ≡ audit_with subject prefix workers }
{
    match (subject, prefix, workers) {
        (None, None, None) => Some(Job::Audit),
        _ => None,
    }
}

/// Returns the address that is given, or none where nothing is given.
fn home_with(subject: Option<Name>, address: Option<u32>) -> Option<Option<u32>>
    ensures { result ≡ home_with subject address }
{
    match (subject, address) {
        (None, None) => Some(None),
        (Some(_), Some(address)) => Some(Some(address)),
        _ => None,
    }
}

/// Returns the job `import`, beside which nothing stands, or an address.
fn import_with(
    subject: Option<Name>,
    address: Option<u32>,
    prefix: Option<Prefix>,
    workers: Option<usize>,
) -> Option<Job>
    ensures { result ≡ import_with subject address prefix workers }
{
    if prefix.is_some() || workers.is_some() {
        return None;
    }
    home_with(subject, address).map(|home| Job::Import { home })
}

/// Returns the job `make`, beside which a seed stands.
fn make_with(seed: Option<u32>, prefix: Option<Prefix>, workers: Option<usize>) -> Option<Job>
    ensures { result ≡ make_with seed prefix workers }
{
    match (seed, prefix, workers) {
        (Some(seed), None, None) => Some(Job::Make { seed }),
        _ => None,
    }
}

/// Returns the job `drill`, beside which a seed stands.
fn drill_with(
    seed: Option<u32>,
    prefix: Option<Prefix>,
    workers: Option<usize>,
    form: Form,
) -> Option<Job>
    ensures { result ≡ drill_with seed prefix workers form }
{
    match (seed, prefix) {
        (Some(seed), None) => Some(Job::Drill {
            seed,
            workers: workers.unwrap_or(2),
            form,
        }),
        _ => None,
    }
}

/// Returns the job `story`, beside which the name of a peering stands.
fn story_with(subject: Option<Name>, prefix: Option<Prefix>, workers: Option<usize>) -> Option<Job>
    ensures { result ≡ story_with subject prefix workers }
{
    match (subject, prefix) {
        (Some(peering), None) => Some(Job::Story {
            peering,
            workers: workers.unwrap_or(2),
        }),
        _ => None,
    }
}

/// Returns the job `why`, beside which the name of a router and a prefix stand.
fn why_with(
    subject: Option<Name>,
    prefix: Option<Prefix>,
    workers: Option<usize>,
    form: Form,
) -> Option<Job>
    ensures { result ≡ why_with subject prefix workers form }
{
    match (subject, prefix) {
        (Some(router), Some(prefix)) => Some(Job::Why {
            router,
            prefix,
            workers: workers.unwrap_or(2),
            form,
        }),
        _ => None,
    }
}

/// Returns the job of a name, if what stands beside it is what the job takes.
fn job_named(name: &str, arguments: Arguments) -> Option<Job>
    ensures { result ≡ job_named name.now arguments }
{
    let Arguments {
        subject,
        seed,
        address,
        prefix,
        workers,
        form,
    } = arguments;
    match name {
        "run" => Some(Job::Run {
            workers: workers_alone(subject, prefix, workers)?,
            form,
        }),
        "check" => check_with(subject, prefix, workers, form),
        "make" => plain(form, make_with(seed, prefix, workers)),
        "drill" => drill_with(seed, prefix, workers, form),
        "journal" => plain(
            form,
            workers_alone(subject, prefix, workers).map(|workers| Job::Journal { workers }),
        ),
        "audit" => plain(form, audit_with(subject, prefix, workers)),
        "capture" => plain(
            form,
            workers_alone(subject, prefix, workers).map(|workers| Job::Capture { workers }),
        ),
        "import" => plain(form, import_with(subject, address, prefix, workers)),
        "timeline" => Some(Job::Timeline {
            workers: workers_alone(subject, prefix, workers)?,
            form,
        }),
        "show" => Some(Job::Show {
            workers: workers_alone(subject, prefix, workers)?,
            form,
        }),
        "story" => plain(form, story_with(subject, prefix, workers)),
        "why" => why_with(subject, prefix, workers, form),
        "picture" => plain(
            form,
            workers_alone(subject, prefix, workers).map(|workers| Job::Picture { workers }),
        ),
        "test" => Some(Job::Test {
            workers: workers_alone(subject, prefix, workers)?,
            form,
        }),
        _ => None,
    }
}

/// Returns the job that is given by its name and what stands beside it.
pub(crate) fn job_of(
    alloc: Global,
    name: Option<&str>,
    subject: Option<&str>,
    prefix: Option<&str>,
    workers: Option<&str>,
    json: Option<&str>,
) -> Result<Job, WordStop>
    ensures { Answers (IsJob (given_by (option_map (λ s. s.now) name.entry) (option_map (λ s. s.now) subject.entry)
        (option_map (λ s. s.now) prefix.entry) (option_map (λ s. s.now) workers.entry) (option_map (λ s. s.now) json.entry))) result }
{
    let Some(name) = name else {
        return Err(WordStop::Usage);
    };
    match arguments_in(alloc, subject, prefix, workers, json) {
        Ok(arguments) => match job_named(name, arguments) {
            Some(job) => Ok(job),
            None => Err(WordStop::Usage),
        },
        Err(stop) => Err(stop),
    }
}
