//! The program `qserv_serve`: loads a survey once, and answers scripts from its standard input until that ends.
//!
//! It gives the top call, `script_server::qserv_serve`, the words, the files of the current folder, and the standard
//! streams. The line of the outcome goes to standard error. Below: `script_server`, and the adapters of `sky_io` and
//! `byte_source`. No work of its own.
#![tactic(auto)]

use byte_source::InSource;
use script_server::{ServeOutcome, put_serve_outcome, qserv_serve, serve_status};
use sky_io::{ErrSink, FolderShelf, OpenGate, OutSink, Sink};
use std::alloc::AllocError;
use std::io::ErrorKind;
use std::process::ExitCode;
use std::rt::Env;
use std::{env, io};
use top_call::Outcome;

fn main(rt: HostRuntime) -> ExitCode {
    let words = match words_of(&rt) {
        Ok(words) => words,
        Err(error) => return tell(&rt, &without_words(error), &[]),
    };
    let Ok(load) = load_words(&rt, words.as_slice()) else {
        return tell(&rt, &no_memory(), &[]);
    };
    let alloc = rt.alloc();
    let mut shelf = FolderShelf::new(&rt, alloc);
    let mut source = InSource::new(&rt);
    let mut sink = OutSink::new(&rt);
    let outcome = qserv_serve(
        &rt,
        alloc,
        words.as_slice(),
        &mut shelf,
        &mut source,
        &mut sink,
        &OpenGate,
    );
    tell(&rt, &outcome, load.as_slice())
}

// Returns the words after the program's own name. Words that are not UTF-8 are an error.
fn words_of<R: Env + AllocGlobal>(rt: &R) -> io::Result<Vec<String>> {
    let mut words = Vec::new(rt.alloc());
    for word in env::args(rt)?.skip(1) {
        words.push(word)?;
    }
    Ok(words)
}

// Returns the words of the command that loads the same survey. By them the line of an outcome names a file.
fn load_words<R: AllocGlobal>(rt: &R, words: &[String]) -> Result<Vec<String>, AllocError> {
    let mut load = Vec::new(rt.alloc());
    load.push(String::from_str(rt.alloc(), "load")?)?;
    for word in words.iter().take(2) {
        load.push(word.clone()?)?;
    }
    Ok(load)
}

// Returns the outcome if the words could not be read.
fn without_words(error: io::Error) -> ServeOutcome {
    match error.kind() {
        ErrorKind::OutOfMemory => no_memory(),
        _ => ServeOutcome::Usage,
    }
}

// Returns the outcome if there is no memory for the words.
fn no_memory() -> ServeOutcome {
    ServeOutcome::Stopped {
        outcome: Outcome::Memory,
    }
}

// Writes the outcome's line to standard error, and returns its status whether or not that succeeds.
fn tell(rt: &HostRuntime, outcome: &ServeOutcome, load: &[String]) -> ExitCode {
    let mut sink = ErrSink::new(rt);
    put_serve_outcome(&mut sink, outcome, load);
    sink.flush_out();
    ExitCode::from(serve_status(outcome))
}
