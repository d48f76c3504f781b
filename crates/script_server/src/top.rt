//! The top call of `serve`: arguments, then the survey, then the requests.
ghost use Rattle.std.specs.Prelude.{◌≡◌, ◌↔◌, ◌≤◌, None};
ghost use Rattle.session_rules.specs.declared.limits.TheConstants.{WORKERS_MOST};
ghost use Rattle.request_loop.specs.Sessions.{streams};
ghost use Rattle.top_call.specs.Words.{bytes_of};
ghost use Rattle.script_server.specs.Answers.{basis_of};
ghost use Rattle.script_server.specs.Meanings.{IsServeOutcome, OutcomeOf};
ghost use Rattle.script_server.specs.Steps.{IsServed};
ghost use Rattle.script_server.specs.WordForms.{asked_by};
ghost use Rattle.script_server.specs.Words.{words_of};

use crate::outcome::ServeOutcome;
use crate::session::serve;
use crate::words::{ReadWords, read_words};
use byte_source::Source;
use chunk_store::Store;
use czar::World;
use sky_io::{Gate, Shelf, Sink};
use std::alloc::Global;
use std::sync::Wait;
use std::thread::Threads;
use top_call::{Outcome, fetch_survey};

/// Loads the survey that the arguments give, and answers the requests of a source over it, one after another, until
/// the source is at its end. Each reply is written to the sink and sent before the next request is read.
///
/// Allocates memory for the survey and the index of its ids, and then for one request at a time. Queries are answered by
/// this thread and as many workers as the arguments ask for, and these read the catalogue too. A thread passes the gate
/// before its work on a chunk. Waits for the other threads, and for the source.
pub fn qserv_serve<R: Threads + Wait + Sync, S: Shelf, F: Source, K: Sink, G: Gate + Sync>(
    rt: &R,
    alloc: Global,
    words: &[String],
    shelf: &mut S,
    source: &mut F,
    sink: &mut K,
    gate: &G,
) -> ServeOutcome
    ensures usage { (result ≡ ServeOutcome.Usage) ↔ (words_of (bytes_of words.now) ≡ None) }
    ensures explained { IsServeOutcome (words_of (bytes_of words.now))
        (S.state shelf.old) (S.state shelf.new)
        (streams (F.state source.old) (F.state source.new) (K.state sink.old) (K.state sink.new))
        result }
{
    match read_words(words) {
        None => ServeOutcome::Usage,
        Some(words) => serve_survey(rt, alloc, &words, shelf, source, sink, gate),
    }
}

// Loads the survey, and answers the requests.
fn serve_survey<R: Threads + Wait + Sync, S: Shelf, F: Source, K: Sink, G: Gate + Sync>(
    rt: &R,
    alloc: Global,
    words: &ReadWords<'_>,
    shelf: &mut S,
    source: &mut F,
    sink: &mut K,
    gate: &G,
) -> ServeOutcome
    requires { words.now.workers ≤ WORKERS_MOST }
    ensures { OutcomeOf (asked_by words.now) (S.state shelf.old) (S.state shelf.new)
        (streams (F.state source.old) (F.state source.new) (K.state sink.old) (K.state sink.new))
        result }
{
    let workers = words.workers;
    match fetch_survey(alloc, rt, workers + 1, shelf, words.sky, words.catalogue) {
        Err(outcome) => ServeOutcome::Stopped { outcome },
        Ok(store) => {
            let outcome = serve_store(alloc, rt, &store, workers, source, sink, gate);
            drop(store);
            outcome
        }
    }
}

// Indexes the ids of a store, once for all requests, and answers the requests over both.
fn serve_store<R: Threads + Wait + Sync, F: Source, K: Sink, G: Gate + Sync>(
    alloc: Global,
    rt: &R,
    store: &Store,
    workers: u32,
    source: &mut F,
    sink: &mut K,
    gate: &G,
) -> ServeOutcome
    requires { workers ≤ WORKERS_MOST }
    ensures { IsServed (basis_of store.now workers)
        (streams (F.state source.old) (F.state source.new) (K.state sink.old) (K.state sink.new))
        result }
{
    match World::new(alloc, store) {
        Ok(world) => {
            let session = serve(alloc, rt, &world, workers, source, sink, gate);
            drop(world);
            ServeOutcome::Ended { session }
        }
        Err(_) => ServeOutcome::Stopped {
            outcome: Outcome::Memory,
        },
    }
}
