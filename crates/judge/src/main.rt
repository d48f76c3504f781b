//! Evaluates each line of standard input, as a text or a position, and writes a line for each.
//!
//! A line `judge COMMAND` writes nothing: it says how the lines after it are evaluated. COMMAND is one of
//!
//! - `read`: `query`, or the first fault of the text;
//! - `print`: the printed text of the query, or the first fault of the text;
//! - `place SKY`: the chunks of the position `x y z` in the sky plan of that file, as `chunk C sub S near N N ..`.
//!
//! The program ends with status 1 at a line before the first command, at any other COMMAND, and at a line that is not
//! UTF-8.
//!
//! It is for checks from outside: `scripts/random_queries.py` and `scripts/compare_places.py` compute the same results
//! independently. Below: `sql_reader` and `sql_print` for texts, `sky_plan` and `overlap_tables` for positions. It reads
//! no catalogue. No clause is about what it writes, so nothing is proved of that.
#![tactic(auto)]

mod form;
mod place;
mod text;
mod told;

use crate::form::{Form, form_of};
use crate::place::put_place;
use crate::text::put_text;
use sky_io::{FolderShelf, OutSink, Put, Shelf, Sink};
use std::alloc::Global;
use std::io;
use std::process::ExitCode;

// Writes the result of a line, and ends the line.
fn put_judged<K: Sink>(sink: &mut K, alloc: Global, form: &Form, line: &[u8]) -> Put {
    let put = match form {
        Form::Read => put_text(sink, alloc, line, false),
        Form::Print => put_text(sink, alloc, line, true),
        Form::Place(plan) => put_place(sink, alloc, plan, line),
    };
    match put {
        Put::Failed => Put::Failed,
        Put::Done => sink.put(b"\n"),
    }
}

// Writes the result of a line, if a command precedes it.
fn put_by<K: Sink>(sink: &mut K, alloc: Global, form: &Option<Form>, line: &[u8]) -> Put {
    match form {
        Some(form) => put_judged(sink, alloc, form, line),
        None => Put::Failed,
    }
}

// Sets the way of evaluation that a command names. The result is `Failed` if it names none.
fn take_form(form: &mut Option<Form>, said: Option<Form>) -> Put {
    *form = said;
    if form.is_some() {
        Put::Done
    } else {
        Put::Failed
    }
}

// Processes a line, which is a command or is evaluated.
fn take_line<S: Shelf, K: Sink>(
    form: &mut Option<Form>,
    shelf: &mut S,
    sink: &mut K,
    alloc: Global,
    line: &str,
) -> Put {
    match line.strip_prefix("judge ") {
        Some(words) => take_form(form, form_of(shelf, alloc, words)),
        None => put_by(sink, alloc, form, line.as_bytes()),
    }
}

// Evaluates all lines, each by the last command before it.
fn judge_lines<S: Shelf>(
    rt: &HostRuntime,
    form: &mut Option<Form>,
    shelf: &mut S,
    sink: &mut OutSink,
) -> io::Result<Put> {
    let alloc = rt.alloc();
    for line in rt.lines(alloc) {
        let line = line?;
        if take_line(form, shelf, sink, alloc, line.as_str()) == Put::Failed {
            return Ok(Put::Failed);
        }
    }
    Ok(sink.flush_out())
}

// Evaluates all lines. No command precedes the first.
fn judge(rt: &HostRuntime, sink: &mut OutSink) -> io::Result<Put> {
    let mut shelf = FolderShelf::new(rt, rt.alloc());
    let mut form = None;
    let put = judge_lines(rt, &mut form, &mut shelf, sink);
    drop(form);
    put
}

fn main(rt: HostRuntime) -> ExitCode {
    let mut sink = OutSink::new(&rt);
    match judge(&rt, &mut sink) {
        Ok(Put::Done) => ExitCode::SUCCESS,
        _ => ExitCode::FAILURE,
    }
}
