//! Writes a journal as a text.
ghost use Rattle.std.specs.Prelude.{◌≡◌, ℕ, List, [], ◌∷◌, ◌++◌, codes, flat_map};
ghost use Rattle.std.specs.Fmt.{decimal};
ghost use Rattle.sky_io.specs.Sinks.{Wrote};
ghost use Rattle.scan_rules.specs.Lines.{seat_of};
ghost use Rattle.scan_history.specs.Printed.{decimals, lost_parts, event_parts, spaced, line_of, entry_text, journal_text};

use scan_rules::{Journal, JournalLine};
use sky_io::{Put, Sink};
use sky_text::put_count;

/// Writes a journal: a line for the ring, and a line for each entry. A failure may leave a prefix of it written. Does
/// not allocate.
pub fn put_journal<K: Sink>(sink: &mut K, journal: &Journal) -> Put
    ensures { Wrote (K.state sink.old) (K.state sink.new) (journal_text journal.now) result }
{
    match put_ring(sink, journal.ring) {
        Put::Failed => Put::Failed,
        Put::Done => put_entries(sink, journal.lines.as_slice()),
    }
}

/// Writes the line of the ring.
fn put_ring<K: Sink>(sink: &mut K, ring: u32) -> Put
    ensures { Wrote (K.state sink.old) (K.state sink.new)
        (line_of (codes "ring") (decimal ring ∷ [])) result }
{
    match sink.put(b"ring") {
        Put::Failed => Put::Failed,
        Put::Done => put_last(sink, ring),
    }
}

/// Writes a last number and the end of the line.
fn put_last<K: Sink>(sink: &mut K, number: u32) -> Put
    ensures { Wrote (K.state sink.old) (K.state sink.new)
        (spaced (decimal number ∷ []) ++ 10 ∷ []) result }
{
    match put_first(sink, number, &[]) {
        Put::Failed => Put::Failed,
        Put::Done => sink.put(b"\n"),
    }
}

/// Writes a line for each entry.
fn put_entries<K: Sink>(sink: &mut K, entries: &[JournalLine]) -> Put
    ensures { Wrote (K.state sink.old) (K.state sink.new) (flat_map entry_text entries.now) result }
{
    for entry in entries {
        match put_entry(sink, entry) {
            Put::Failed => return Put::Failed,
            Put::Done => {}
        }
    }
    Put::Done
}

/// The participant that made an entry. Does not allocate.
fn seat_of(entry: &JournalLine) -> u32
    ensures { result ≡ seat_of entry.now }
{
    match entry {
        JournalLine::Attach { seat, .. } => *seat,
        JournalLine::Take { seat, .. } => *seat,
        JournalLine::Deliver { seat, .. } => *seat,
        JournalLine::Cancel { seat, .. } => *seat,
        JournalLine::Collect { seat, .. } => *seat,
        JournalLine::Close { seat } => *seat,
    }
}

/// Writes the line of an entry.
fn put_entry<K: Sink>(sink: &mut K, entry: &JournalLine) -> Put
    ensures { Wrote (K.state sink.old) (K.state sink.new) (entry_text entry.now) result }
{
    match put_count(sink, u64::from(seat_of(entry))) {
        Put::Failed => Put::Failed,
        Put::Done => put_after_seat(sink, entry),
    }
}

/// Writes what is after the participant, and the end of the line.
fn put_after_seat<K: Sink>(sink: &mut K, entry: &JournalLine) -> Put
    ensures { Wrote (K.state sink.old) (K.state sink.new)
        (spaced (event_parts entry.now) ++ 10 ∷ []) result }
{
    match put_event(sink, entry) {
        Put::Failed => Put::Failed,
        Put::Done => sink.put(b"\n"),
    }
}

/// Writes the parts of an entry after its participant.
fn put_event<K: Sink>(sink: &mut K, entry: &JournalLine) -> Put
    ensures { Wrote (K.state sink.old) (K.state sink.new) (spaced (event_parts entry.now)) result }
{
    match entry {
        JournalLine::Attach { q, chunks, .. } => {
            put_word(sink, b"attach", *q, chunks.as_slice())
        }
        JournalLine::Take {
            ticket,
            chunk,
            queries,
            ..
        } => put_take(sink, *ticket, *chunk, queries.list().as_slice()),
        JournalLine::Deliver { ticket, lost, .. } => {
            put_deliver(sink, *ticket, lost.list().as_slice())
        }
        JournalLine::Cancel { q, .. } => put_word(sink, b"cancel", *q, &[]),
        JournalLine::Collect { q, .. } => put_word(sink, b"collect", *q, &[]),
        JournalLine::Close { .. } => sink.put(b" close"),
    }
}

/// Writes a space and a part.
fn put_part<K: Sink>(sink: &mut K, part: &[u8]) -> Put
    ensures { Wrote (K.state sink.old) (K.state sink.new) (32 ∷ part.now) result }
{
    match sink.put(b" ") {
        Put::Failed => Put::Failed,
        Put::Done => sink.put(part),
    }
}

/// Writes a space and a number.
fn put_number<K: Sink>(sink: &mut K, number: u32) -> Put
    ensures { Wrote (K.state sink.old) (K.state sink.new) (32 ∷ decimal number) result }
{
    match sink.put(b" ") {
        Put::Failed => Put::Failed,
        Put::Done => put_count(sink, u64::from(number)),
    }
}

/// Writes numbers, each with a space before it.
fn put_numbers<K: Sink>(sink: &mut K, numbers: &[u32]) -> Put
    ensures { Wrote (K.state sink.old) (K.state sink.new) (spaced (decimals numbers.now)) result }
{
    for number in numbers {
        match put_number(sink, *number) {
            Put::Failed => return Put::Failed,
            Put::Done => {}
        }
    }
    Put::Done
}

/// Writes a number and those after it.
fn put_first<K: Sink>(sink: &mut K, first: u32, numbers: &[u32]) -> Put
    ensures { Wrote (K.state sink.old) (K.state sink.new)
        (spaced (decimal first ∷ decimals numbers.now)) result }
{
    match put_number(sink, first) {
        Put::Failed => Put::Failed,
        Put::Done => put_numbers(sink, numbers),
    }
}

/// Writes a word, a number and those after it.
fn put_word<K: Sink>(sink: &mut K, word: &[u8], first: u32, numbers: &[u32]) -> Put
    ensures { Wrote (K.state sink.old) (K.state sink.new)
        (spaced (word.now ∷ decimal first ∷ decimals numbers.now)) result }
{
    match put_part(sink, word) {
        Put::Failed => Put::Failed,
        Put::Done => put_first(sink, first, numbers),
    }
}

/// Writes two numbers and those after them.
fn put_two<K: Sink>(sink: &mut K, first: u32, second: u32, numbers: &[u32]) -> Put
    ensures { Wrote (K.state sink.old) (K.state sink.new)
        (spaced (decimal first ∷ decimal second ∷ decimals numbers.now)) result }
{
    match put_number(sink, first) {
        Put::Failed => Put::Failed,
        Put::Done => put_first(sink, second, numbers),
    }
}

/// Writes the parts of a Take.
fn put_take<K: Sink>(sink: &mut K, ticket: u32, chunk: u32, queries: &[u32]) -> Put
    ensures { Wrote (K.state sink.old) (K.state sink.new)
        (spaced (codes "take" ∷ decimal ticket ∷ decimal chunk ∷ decimals queries.now)) result }
{
    match put_part(sink, b"take") {
        Put::Failed => Put::Failed,
        Put::Done => put_two(sink, ticket, chunk, queries),
    }
}

/// Writes the parts of a Deliver after its word.
fn put_delivered<K: Sink>(sink: &mut K, ticket: u32, lost: &[u32]) -> Put
    ensures { Wrote (K.state sink.old) (K.state sink.new)
        (spaced (decimal ticket ∷ lost_parts lost.now)) result }
{
    match put_number(sink, ticket) {
        Put::Failed => Put::Failed,
        Put::Done => put_lost(sink, lost),
    }
}

/// Writes the parts of a Deliver.
fn put_deliver<K: Sink>(sink: &mut K, ticket: u32, lost: &[u32]) -> Put
    ensures { Wrote (K.state sink.old) (K.state sink.new)
        (spaced (codes "deliver" ∷ decimal ticket ∷ lost_parts lost.now)) result }
{
    match put_part(sink, b"deliver") {
        Put::Failed => Put::Failed,
        Put::Done => put_delivered(sink, ticket, lost),
    }
}

/// Writes the lost queries, if there are any.
fn put_lost<K: Sink>(sink: &mut K, lost: &[u32]) -> Put
    ensures { Wrote (K.state sink.old) (K.state sink.new) (spaced (lost_parts lost.now)) result }
{
    match lost {
        [] => Put::Done,
        [first, rest @ ..] => put_word(sink, b"lost", *first, rest),
    }
}
