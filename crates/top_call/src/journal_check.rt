//! The check of a journal: its text is read, its entries are gone through, and the line of a right one is written.
ghost use Rattle.std.specs.Prelude.{◌≡◌, ◌≤◌, ◌^◌, length, codes};
ghost use Rattle.text_rules.specs.declared.limits.TheConstants.{TEXT_MOST};
ghost use Rattle.sky_io.specs.Sinks.{Wrote};
ghost use Rattle.scan_rules.specs.declared.limits.TheConstants.{RING_MOST};
ghost use Rattle.scan_rules.specs.declared.journal.Journal.{Journal as JournalView};
ghost use Rattle.scan_history.specs.Checked.{tally_of};
ghost use Rattle.top_call.specs.FaultLines.{numbered};
ghost use Rattle.top_call.specs.Journals.{tally_line};
ghost use Rattle.top_call.specs.Jobs.{Checks};
ghost use Rattle.top_call.specs.Steps.{IsWritten};
ghost use Rattle.top_call.specs.Checks.{IsCheckOf, IsCheckOver};

use crate::ends::no_ends;
use crate::fault_lines::{put_numbered, put_place};
use crate::outcome::Outcome;
use crate::work::send;
use scan_history::{Tally, check, read_journal};
use scan_rules::Journal;
use sky_io::{Put, Sink, Stop};
use std::alloc::Global;

/// Reads the journal that a text of at most 2^29 bytes spells, checks it, and writes how much a right one contains. Allocates
/// memory, all of it before the first byte is written.
pub fn check_journal<K: Sink>(alloc: Global, text: &[u8], sink: &mut K) -> Outcome
    requires { length text.now ≤ TEXT_MOST }
    ensures { IsCheckOver text.now (K.state sink.old) (K.state sink.new) result }
{
    match read_journal(alloc, text) {
        Ok(journal) => check_read(alloc, journal, sink),
        Err(Stop::Bad(fault)) => Outcome::BadJournal { fault },
        Err(Stop::Memory) => Outcome::Memory,
    }
}

// Checks a journal, and writes how much a right one contains.
fn check_read<K: Sink>(alloc: Global, journal: Journal, sink: &mut K) -> Outcome
    requires { journal.ring ≤ RING_MOST }
    ensures { IsCheckOf journal (K.state sink.old) (K.state sink.new) result }
{
    let outcome = check_entries(alloc, &journal, sink);
    drop(journal);
    outcome
}

// Goes through the entries of a journal, and writes how much a right one contains.
fn check_entries<K: Sink>(alloc: Global, journal: &Journal, sink: &mut K) -> Outcome
    requires { journal.now.ring ≤ RING_MOST }
    ensures { IsCheckOf journal.now (K.state sink.old) (K.state sink.new) result }
{
    match check(alloc, journal) {
        Ok(tally) => write_tally(alloc, tally, sink),
        Err(Stop::Bad(fault)) => Outcome::BadJournal { fault },
        Err(Stop::Memory) => Outcome::Memory,
    }
}

// Writes the line of each journal with this tally, and sends it.
fn write_tally<K: Sink>(alloc: Global, tally: Tally, sink: &mut K) -> Outcome
    ensures { (journal : JournalView) → tally ≡ tally_of journal.lines
        → IsWritten (Checks journal) (K.state sink.old) (K.state sink.new) result }
{
    let ends = no_ends(alloc);
    match put_tally(sink, tally) {
        Put::Failed => Outcome::SinkFault { ends },
        Put::Done => send(sink, ends),
    }
}

// Writes the line of a tally. Does not allocate.
fn put_tally<K: Sink>(sink: &mut K, tally: Tally) -> Put
    ensures { Wrote (K.state sink.old) (K.state sink.new) (tally_line tally) result }
{
    match put_place(sink, b"ok: ", tally.entries) {
        Put::Failed => Put::Failed,
        Put::Done => put_parts(sink, tally.queries, tally.takes),
    }
}

// Writes the parts of a tally's line after the number of entries.
fn put_parts<K: Sink>(sink: &mut K, queries: u32, takes: u32) -> Put
    ensures { Wrote (K.state sink.old) (K.state sink.new)
        (numbered (codes " entries, ") queries (numbered (codes " queries, ") takes (codes " takes\n"))) result }
{
    match put_place(sink, b" entries, ", queries) {
        Put::Failed => Put::Failed,
        Put::Done => put_numbered(sink, b" queries, ", takes, b" takes\n"),
    }
}
