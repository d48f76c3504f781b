//! The top call: arguments, then the texts, then the work, then the writing.
ghost use Rattle.std.specs.Prelude.{◌≡◌, ◌↔◌, None};
ghost use Rattle.top_call.specs.Words.{Load, Asks, Check, IsManned, form_of, bytes_of};
ghost use Rattle.top_call.specs.WordForms.{IsWithin, asked_by};
ghost use Rattle.top_call.specs.Explained.{Explained, ExplainedOf, shown};
ghost use Rattle.top_call.specs.Completes.{Complete};

use crate::demo::run_demo;
use crate::inputs::{fetch_all, fetch_journal, fetch_survey};
use crate::journal_check::check_journal;
use crate::outcome::Outcome;
use crate::sources::run_sources;
use crate::task::Task;
use crate::threads::{processors, threads_of};
use crate::words::{Form, ScriptNames, read_words};
use crate::work::{do_task, report};
use sky_io::{Gate, Shelf, Sink};
use std::alloc::Global;
use std::sync::Wait;
use std::thread::Threads;

/// Executes the command that the arguments give: reports how the rows are distributed over the chunks, answers or
/// explains the queries of a script, answers them over objects and their sources, or checks a journal. The texts are
/// fetched from the shelf one by one. The chunks are built before the script is fetched. All texts are accepted and all
/// answers computed before the first byte is written to the sink.
///
/// Allocates memory for the texts, the rows and their chunks, and the answers; writing does not allocate. Queries are
/// answered by this thread and as many workers as the arguments ask for, and the same number of threads reads the
/// catalogue and the source table. To report and to explain, the catalogue is read with a thread for each processor. A
/// thread passes the gate before its work on a chunk. Waits for the other threads. One that cannot be started costs no
/// answer.
pub fn qserv<R: Threads + Wait + Sync, S: Shelf, K: Sink, G: Gate + Sync>(
    rt: &R,
    alloc: Global,
    words: &[String],
    shelf: &mut S,
    sink: &mut K,
    gate: &G,
) -> Outcome
    ensures usage { (result ≡ Outcome.Usage) ↔ (form_of (bytes_of words.now) ≡ None) }
    ensures explained { Explained (form_of (bytes_of words.now))
        (shown (S.state shelf.old) (S.state shelf.new) (K.state sink.old) (K.state sink.new))
        result }
    ensures complete { Complete (form_of (bytes_of words.now))
        (shown (S.state shelf.old) (S.state shelf.new) (K.state sink.old) (K.state sink.new))
        result }
{
    match read_words(words) {
        None => Outcome::Usage,
        Some(form) => run_form(alloc, rt, &form, shelf, sink, gate),
    }
}

// Executes a command.
fn run_form<R: Threads + Wait + Sync, S: Shelf, K: Sink, G: Gate + Sync>(
    alloc: Global,
    rt: &R,
    form: &Form<'_>,
    shelf: &mut S,
    sink: &mut K,
    gate: &G,
) -> Outcome
    requires { IsWithin form.now }
    ensures { ExplainedOf (asked_by form.now)
        (shown (S.state shelf.old) (S.state shelf.new) (K.state sink.old) (K.state sink.new))
        result }
{
    match form {
        Form::Load { sky, catalogue } => run_load(alloc, rt, sky, catalogue, shelf, sink),
        Form::Asks { task, names } => run_task(alloc, rt, *task, names, shelf, sink, gate),
        Form::AsksSources { workers, names } => {
            run_sources(alloc, rt, *workers, names, shelf, sink, gate)
        }
        Form::Check { journal } => run_check(alloc, journal, shelf, sink),
        Form::Demo {
            count,
            seed,
            workers,
        } => run_demo(alloc, rt, *count, *seed, *workers, sink, gate),
    }
}

// Reports how the rows of the named catalogue are distributed over the chunks of the named sky plan.
fn run_load<R: Threads + Sync, S: Shelf, K: Sink>(
    alloc: Global,
    rt: &R,
    sky: &str,
    catalogue: &str,
    shelf: &mut S,
    sink: &mut K,
) -> Outcome
    ensures { ExplainedOf (Load sky.now catalogue.now)
        (shown (S.state shelf.old) (S.state shelf.new) (K.state sink.old) (K.state sink.new))
        result }
{
    match fetch_survey(alloc, rt, processors(rt), shelf, sky, catalogue) {
        Ok(store) => report(alloc, store, sink),
        Err(outcome) => outcome,
    }
}

// Executes the task on the named script over the named sky plan and catalogue.
fn run_task<R: Threads + Wait + Sync, S: Shelf, K: Sink, G: Gate + Sync>(
    alloc: Global,
    rt: &R,
    task: Task,
    names: &ScriptNames<'_>,
    shelf: &mut S,
    sink: &mut K,
    gate: &G,
) -> Outcome
    requires { IsManned task }
    ensures { ExplainedOf
        (Asks task names.now.sky.now names.now.catalogue.now names.now.script.now)
        (shown (S.state shelf.old) (S.state shelf.new) (K.state sink.old) (K.state sink.new))
        result }
{
    match fetch_all(alloc, rt, threads_of(rt, task), shelf, names) {
        Ok((store, text)) => do_task(alloc, rt, task, store, text.as_slice(), sink, gate),
        Err(outcome) => outcome,
    }
}

// Checks the named journal.
fn run_check<S: Shelf, K: Sink>(
    alloc: Global,
    journal: &str,
    shelf: &mut S,
    sink: &mut K,
) -> Outcome
    ensures { ExplainedOf (Check journal.now)
        (shown (S.state shelf.old) (S.state shelf.new) (K.state sink.old) (K.state sink.new))
        result }
{
    match fetch_journal(alloc, shelf, journal) {
        Ok(text) => check_journal(alloc, text.as_slice(), sink),
        Err(outcome) => outcome,
    }
}
