//! The command line, read with `clap`.

ghost use Rattle.std.specs.Prelude.{◌≡◌, ◌∷◌, map, codes, Err, IfOk, IfSome, None};
ghost use Rattle.clap.specs.Words.{app_of, found_of, rows_of};
ghost use Rattle.lab_words.specs.declared.job.Job.TheVariants.{Help, Version};
ghost use Rattle.lab_words.specs.Asked.{placed_command, graft_command, line_of, given_in, IsJob, AskInLine, Asks, HasNumbers};
ghost use Rattle.lab_words.specs.Reading.{Answers};

use crate::job::{Job, WordStop};
use crate::table::job_of;
use clap::error::ErrorKind;
use clap::{Arg, ArgAction, ArgMatches, Command};
use graft_edge::{NoMemory, Words};
use std::alloc::{AllocError, Global};

/// Returns the texts of the command line by their places, for `clap`.
fn make_places<'a>(alloc: Global) -> Result<Command<'a>, AllocError>
    ensures { IfOk result (λ c. app_of c ≡ placed_command) }
{
    let job = Arg::new(alloc, "job").required(true);
    let subject = Arg::new(alloc, "subject");
    let prefix = Arg::new(alloc, "prefix");
    Command::new(alloc, "graftlab")
        .arg(job)?
        .arg(subject)?
        .arg(prefix)
}

/// Returns the definition of the command line for `clap`.
fn make_command<'a>(alloc: Global) -> Result<Command<'a>, AllocError>
    ensures { IfOk result (λ c. app_of c ≡ graft_command) }
{
    let workers = Arg::new(alloc, "workers").long("workers");
    let json = Arg::new(alloc, "json")
        .long("json")
        .action(ArgAction::SetTrue);
    make_places(alloc)?.arg(workers)?.arg(json)
}

/// Returns the words after the program's name, in the form that `clap` takes.
fn line_of<'a>(alloc: Global, words: &'a Words) -> Result<Vec<&'a str>, NoMemory>
    ensures { IfOk result (λ line. map (λ word. word.now) line.items ≡ line_of words.now) }
{
    let mut line = Vec::new(alloc);
    line.push("graftlab")?;
    for k in 0..words.len() {
        line.push(words.get(k))?;
    }
    Ok(line)
}

/// Returns the job of the words that `clap` has found.
fn job_of_matches(alloc: Global, matches: &ArgMatches) -> Result<Job, WordStop>
    ensures { Answers (IsJob (given_in (rows_of (found_of matches.now)))) result }
{
    job_of(
        alloc,
        matches.get_str("job"),
        matches.get_str("subject"),
        matches.get_str("prefix"),
        matches.get_str("workers"),
        matches.get_str("json"),
    )
}

/// Returns the job that a line asks for. The line begins with the program's name.
fn read_line(alloc: Global, line: &[&str]) -> Result<Job, WordStop>
    ensures { Answers (AskInLine (map (λ word. word.now) line.now)) result }
{
    let command = match make_command(alloc) {
        Ok(command) => command,
        Err(_) => return Err(WordStop::NoMemory),
    };
    match command.try_get_matches_from(line) {
        Ok(matches) => job_of_matches(alloc, &matches),
        Err(error) => match error.kind() {
            ErrorKind::OutOfMemory => Err(WordStop::NoMemory),
            _ => Err(WordStop::Usage),
        },
    }
}

/// Returns the job that is asked for by one word alone, if it is one of these words.
fn read_alone(words: &Words) -> Option<Job>
    ensures found { IfSome result (Asks words.now) }
    ensures none { result ≡ None → ¬ (Asks words.now Help) × ¬ (Asks words.now Version) }
{
    if words.len() != 1 {
        return None;
    }
    match words.get(0) {
        "--help" => Some(Job::Help),
        "--version" => Some(Job::Version),
        _ => None,
    }
}

/// Returns the job that the words of a command ask for, which follow the program's name.
pub fn read_words(alloc: Global, words: &Words) -> Result<Job, WordStop>
    ensures asked { IfOk result (Asks words.now) }
    ensures numbers { IfOk result HasNumbers }
    ensures refused { result ≡ Err WordStop.Usage → (job : Job) → ¬ (Asks words.now job) }
{
    match read_alone(words) {
        Some(job) => Ok(job),
        None => match line_of(alloc, words) {
            Ok(line) => read_line(alloc, line.as_slice()),
            Err(_) => Err(WordStop::NoMemory),
        },
    }
}
