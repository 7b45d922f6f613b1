//! The program `graftlab`: does the command that its words name, with standard input and standard output.
#![tactic(auto)]

use graft_edge::{FreeGate, NoMemory, StdSink, StdSource, Words};
use lab_top::{NO_MEMORY, graft_main};
use std::env::Env;
use std::process::ExitCode;
use std::{env, io};

/// Returns the words after the program's name. A word that isn't UTF-8 makes the line no command, like an empty word.
fn words_of(rt: &(impl Env + AllocGlobal)) -> Result<Words, NoMemory> {
    let mut words = Words::new(rt.alloc());
    match env::args(rt) {
        Ok(args) => {
            for word in args.skip(1) {
                words.push(word.as_str())?;
            }
        }
        Err(error) => {
            if error.kind() == io::ErrorKind::OutOfMemory {
                return Err(NoMemory);
            }
            words.push("")?;
        }
    }
    Ok(words)
}

fn main(rt: HostRuntime) -> ExitCode {
    let Ok(words) = words_of(&rt) else {
        return ExitCode::from(NO_MEMORY);
    };
    let mut source = StdSource::new(rt.reader());
    let mut sink = StdSink::new(io::writer(&rt));
    let finish = graft_main(&rt, &words, &mut source, &mut sink, &FreeGate);
    ExitCode::from(finish.status)
}
