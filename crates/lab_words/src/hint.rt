//! What is said of words that ask for no job.

ghost use Rattle.std.specs.Prelude.{◌≡◌, ◌++◌, IfOk, OnOk, option_map, string_bytes};
ghost use Rattle.near_names.specs.Nearness.{nearest as nearest_lem};
ghost use Rattle.lab_words.specs.Hints.{form_of as form_of_lem, job_names, meant_words, named_words, words_hint, refused_text as refused_text_lem};

use crate::job::USAGE_TEXT;
use graft_edge::{Items, NoMemory, Octets, Words};
use near_names::nearest;
use std::alloc::Global;

/// What a job takes that takes workers alone.
const WORKERS_ALONE: &str =
    "this job takes --workers W, with W from 1 to 8, and nothing else; its input comes on standard input: graftlab run < lab.toml";

/// What a job takes that takes workers and a form alone.
const WORKERS_AND_JSON: &str =
    "this job takes --workers W, with W from 1 to 8, and --json, and nothing else; its input comes on standard input: graftlab run < lab.toml";

/// Which jobs there are.
const JOBS_TEXT: &str =
    "the first word is a job: run check make drill journal audit capture import show timeline why story picture test; \
     an input comes on standard input: graftlab run < lab.toml";

/// Returns what the job of a name takes, if there is one.
fn form_of(name: &str) -> Option<&'static str>
    ensures { option_map (λ form. form.now) result ≡ form_of_lem name.now }
{
    match name {
        "run" => Some(WORKERS_AND_JSON),
        "check" => Some(
            "check takes --json and nothing else; its input comes on standard input: graftlab check < lab.toml",
        ),
        "make" => Some("make takes a seed from 1 to 9999: graftlab make 7"),
        "drill" => Some(
            "drill takes a seed from 1 to 9999, and maybe --workers W, with W from 1 to 8, and --json: graftlab drill 7",
        ),
        "journal" => Some(WORKERS_ALONE),
        "audit" => Some(
            "audit takes nothing else; the text of a journal comes on standard input: graftlab audit < journal.txt",
        ),
        "capture" => Some(WORKERS_ALONE),
        "import" => Some(
            "import takes maybe the address of the home side; a capture comes on standard input: graftlab import 192.0.2.2 < run.pcap",
        ),
        "show" => Some(WORKERS_AND_JSON),
        "timeline" => Some(WORKERS_AND_JSON),
        "why" => Some(
            "why takes a router and a prefix, and maybe --workers W, with W from 1 to 8, and --json: graftlab why east 10.0.0.0/8 < lab.toml",
        ),
        "story" => Some(
            "story takes a peering, and maybe --workers W, with W from 1 to 8: graftlab story c1 < lab.toml",
        ),
        "picture" => Some(WORKERS_ALONE),
        "test" => Some(WORKERS_AND_JSON),
        _ => None,
    }
}

/// Returns the name of the job that a word may mean, if there is one.
fn meant_by(alloc: Global, word: &str) -> Result<Option<&'static str>, NoMemory>
    ensures { IfOk result (λ near. option_map (λ name. name.now) near ≡ nearest_lem job_names word.now) }
{
    let names = [
        "run", "check", "make", "drill", "journal", "audit", "capture", "import", "show",
        "timeline", "why", "story", "picture", "test",
    ];
    nearest(alloc, &names, word)
}

/// Adds which job a word may mean, or which jobs there are.
fn push_meant(text: &mut String, near: Option<&str>) -> Result<(), NoMemory>
    ensures { OnOk result (string_bytes text.new ≡ string_bytes text.old ++ meant_words (option_map (λ name. name.now) near.entry)) }
{
    match near {
        Some(name) => {
            text.push_str("no job is called so; did you mean ")?;
            text.push_str(name)?;
            text.push_str("?")?;
        }
        None => text.push_str(JOBS_TEXT)?,
    }
    Ok(())
}

/// Adds what is said of a first word: what its job takes, or which job it may mean.
fn push_named(alloc: Global, text: &mut String, word: &str) -> Result<(), NoMemory>
    ensures { OnOk result (string_bytes text.new ≡ string_bytes text.old ++ named_words word.now (form_of_lem word.now)) }
{
    match form_of(word) {
        Some(form) => Ok(text.push_str(form)?),
        None => {
            let near = meant_by(alloc, word)?;
            push_meant(text, near)
        }
    }
}

/// Adds what is said of words.
fn push_hint(alloc: Global, text: &mut String, words: &Words) -> Result<(), NoMemory>
    ensures { OnOk result (string_bytes text.new ≡ string_bytes text.old ++ words_hint words.now) }
{
    if words.is_empty() {
        return Ok(text.push_str(JOBS_TEXT)?);
    }
    push_named(alloc, text, words.get(0))
}

/// Returns what is said of words that ask for no job: the usage line, and a hint.
pub fn refused_text(alloc: Global, words: &Words) -> Result<Octets, NoMemory>
    ensures { IfOk result (λ text. text ≡ refused_text_lem words.now) }
{
    let mut text = String::from_str(alloc, USAGE_TEXT)?;
    text.push_str("hint: ")?;
    push_hint(alloc, &mut text, words)?;
    text.push_str("\n")?;
    Ok(Items::from_vec(text.into_bytes()))
}
