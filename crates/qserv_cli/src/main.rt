//! The program `qserv`: executes the command of its command line, and exits with the status of the outcome.
//!
//! It gives the top call, `top_call::qserv`, the words, the files of the current folder and standard output. The line
//! of the outcome goes to standard error. Below: `top_call`, and the adapters of `sky_io`. No work of its own.
#![tactic(auto)]

#[cfg(test)]
mod tests;

use sky_io::{ErrSink, FolderShelf, OpenGate, OutSink, Sink};
use std::io::ErrorKind;
use std::process::ExitCode;
use std::rt::Env;
use std::{env, io};
use top_call::{Outcome, put_outcome, qserv, status};

fn main(rt: HostRuntime) -> ExitCode {
    let words = match words_of(&rt) {
        Ok(words) => words,
        Err(error) => return tell(&rt, &without_words(error), &[]),
    };
    let alloc = rt.alloc();
    let mut shelf = FolderShelf::new(&rt, alloc);
    let mut sink = OutSink::new(&rt);
    let outcome = qserv(
        &rt,
        alloc,
        words.as_slice(),
        &mut shelf,
        &mut sink,
        &OpenGate,
    );
    tell(&rt, &outcome, words.as_slice())
}

// Returns the words after the program's own name. Words that are not UTF-8 are an error.
fn words_of<R: Env + AllocGlobal>(rt: &R) -> io::Result<Vec<String>> {
    let mut words = Vec::new(rt.alloc());
    for word in env::args(rt)?.skip(1) {
        words.push(word)?;
    }
    Ok(words)
}

// Returns the outcome if the words could not be read.
fn without_words(error: io::Error) -> Outcome {
    match error.kind() {
        ErrorKind::OutOfMemory => Outcome::Memory,
        _ => Outcome::Usage,
    }
}

// Writes the outcome's line to standard error, and returns its status whether or not that succeeds.
fn tell(rt: &HostRuntime, outcome: &Outcome, words: &[String]) -> ExitCode {
    let mut sink = ErrSink::new(rt);
    put_outcome(&mut sink, outcome, words);
    sink.flush_out();
    ExitCode::from(status(outcome))
}
