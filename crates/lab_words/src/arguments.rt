//! What stands beside the name of a job, and what it is read as.

ghost use Rattle.std.specs.Prelude.{◌≡◌, ◌↔◌, IsTrue, IfOk, option_map, slice_index};
ghost use Rattle.bgp_types.specs.Finds.{Finds};
ghost use Rattle.bgp_types.specs.Texts.{IsPrefixText};
ghost use Rattle.lab_words.specs.Asked.{form_of, AreArguments, IsAddress, IsReadAs, IsSeed, IsSeedText, IsWorkersText};
ghost use Rattle.lab_words.specs.Reading.{Answers, workers_of};

use crate::job::{Form, WordStop};
use bgp_types::{Prefix, read_address, read_prefix};
use graft_edge::{Name, NoMemory};
use std::alloc::Global;

/// What stands beside the name of a job, as it is read.
#[derive(Debug, Drop)]
pub(crate) struct Arguments {
    /// The text that says what the job is about.
    pub subject: Option<Name>,
    /// The seed that this text writes, if it writes one.
    pub seed: Option<u32>,
    /// The address that it writes, if it writes one.
    pub address: Option<u32>,
    pub prefix: Option<Prefix>,
    pub workers: Option<usize>,
    pub form: Form,
}

/// Whether a text begins with a plus sign.
fn has_plus(text: &str) -> bool
    ensures { IsTrue result ↔ (slice_index text.now 0 ≡ 43) }
{
    match text.as_bytes() {
        [b'+', ..] => true,
        _ => false,
    }
}

/// Returns the seed in a text: 1 to 4 decimal digits of a value above 0.
fn seed_of(text: &str) -> Option<u32>
    ensures { Finds (IsSeedText text.now) result }
{
    if text.len() > 4 || has_plus(text) {
        return None;
    }
    match text.parse::<u32>() {
        Ok(seed) if seed > 0 => Some(seed),
        _ => None,
    }
}

/// Returns the number of workers in a text: one digit from 1 to 8.
fn workers_of(text: &str) -> Option<usize>
    ensures { result ≡ workers_of text.now }
{
    match text.as_bytes() {
        [digit] => if *digit >= b'1' && *digit <= b'8' {
            Some((*digit - b'0') as usize)
        } else {
            None
        },
        _ => None,
    }
}

/// Returns the seed that is given, if one is.
fn seed_in(text: Option<&str>) -> Option<u32>
    ensures { Finds (IsSeed (option_map (λ s. s.now) text.entry)) result }
{
    match text {
        Some(text) => seed_of(text),
        None => None,
    }
}

/// Returns the address that is given, if one is.
fn address_in(text: Option<&str>) -> Option<u32>
    ensures { Finds (IsAddress (option_map (λ s. s.now) text.entry)) result }
{
    match text {
        Some(text) => read_address(text),
        None => None,
    }
}

/// Returns the prefix that is given, if there is a text and it writes one; a text that writes none can't be read.
fn prefix_in(text: Option<&str>) -> Option<Option<Prefix>>
    ensures { Finds (IsReadAs IsPrefixText (option_map (λ s. s.now) text.entry)) result }
{
    let Some(text) = text else {
        return Some(None);
    };
    match read_prefix(text) {
        Some(prefix) => Some(Some(prefix)),
        None => None,
    }
}

/// Returns the number of workers that is given, if there is a text and it writes one; a text that writes none can't be read.
fn workers_in(text: Option<&str>) -> Option<Option<usize>>
    ensures { Finds (IsReadAs IsWorkersText (option_map (λ s. s.now) text.entry)) result }
{
    let Some(text) = text else {
        return Some(None);
    };
    match workers_of(text) {
        Some(workers) => Some(Some(workers)),
        None => None,
    }
}

/// Returns a copy of a text, if there is one.
fn subject_in(alloc: Global, text: Option<&str>) -> Result<Option<Name>, NoMemory>
    ensures { IfOk result (λ name. name ≡ option_map (λ s. s.now) text.entry) }
{
    match text {
        Some(text) => Ok(Some(Name::from_text(alloc, text)?)),
        None => Ok(None),
    }
}

/// Returns the form that is asked for: `clap` gives the flag the text `true` where it stands in the line.
fn form_of(json: Option<&str>) -> Form
    ensures { result ≡ form_of (option_map (λ s. s.now) json.entry) }
{
    match json {
        Some("true") => Form::Json,
        _ => Form::Plain,
    }
}

/// Reads what stands beside the name of a job.
pub(crate) fn arguments_in(
    alloc: Global,
    subject: Option<&str>,
    prefix: Option<&str>,
    workers: Option<&str>,
    json: Option<&str>,
) -> Result<Arguments, WordStop>
    ensures { Answers (AreArguments (option_map (λ s. s.now) subject.entry) (option_map (λ s. s.now) prefix.entry)
        (option_map (λ s. s.now) workers.entry) (option_map (λ s. s.now) json.entry)) result }
{
    let seed = seed_in(subject);
    let address = address_in(subject);
    let Some(prefix) = prefix_in(prefix) else {
        return Err(WordStop::Usage);
    };
    let Some(workers) = workers_in(workers) else {
        return Err(WordStop::Usage);
    };
    match subject_in(alloc, subject) {
        Ok(subject) => Ok(Arguments {
            subject,
            seed,
            address,
            prefix,
            workers,
            form: form_of(json),
        }),
        Err(_) => Err(WordStop::NoMemory),
    }
}
