//! Parses the entry of a journal from a line of its text.
ghost use Rattle.std.specs.Prelude.{◌≡◌, ◌≤◌, IfOk, IfSome};
ghost use Rattle.scan_rules.specs.declared.limits.TheConstants.{RING_MOST};
ghost use Rattle.scan_history.specs.Entries.{attach_in, take_in, lost_in, deliver_in, cancel_in, collect_in};
ghost use Rattle.scan_history.specs.Entries.{close_in, other_in, event_in, entry_of, ring_after, ring_of};

use crate::parts::{chunks_in, next_number, next_query, queries_in};
use scan_rules::limits::RING_MOST;
use scan_rules::{JournalLine, QuerySet};
use sky_io::Memory;
use sky_text::Pieces;
use std::alloc::Global;

/// Reads an Attach after its word, `Q C C ..`. Allocates memory for the chunks.
fn attach_in(alloc: Global, seat: u32, parts: Pieces<'_>) -> Result<Option<JournalLine>, Memory>
    ensures { IfOk result (λ entry. entry ≡ attach_in seat parts.entry) }
{
    let mut parts = parts;
    let Some(q) = next_query(&mut parts) else {
        return Ok(None);
    };
    match chunks_in(alloc, parts)? {
        Some(chunks) => Ok(Some(JournalLine::Attach { seat, q, chunks })),
        None => Ok(None),
    }
}

/// Reads a Take after its word, `T C Q Q ..`. Does not allocate.
fn take_in(seat: u32, parts: Pieces<'_>) -> Option<JournalLine>
    ensures { result ≡ take_in seat parts.entry }
{
    let mut parts = parts;
    let ticket = next_number(&mut parts)?;
    let chunk = next_number(&mut parts)?;
    let queries = queries_in(parts)?;
    Some(JournalLine::Take {
        seat,
        ticket,
        chunk,
        queries,
    })
}

/// Reads the lost queries of a Deliver: nothing, or `lost Q Q ..`. Does not allocate.
fn lost_in(parts: Pieces<'_>) -> Option<QuerySet>
    ensures { result ≡ lost_in parts.entry }
{
    let mut parts = parts;
    match parts.next() {
        None => Some(QuerySet::new()),
        Some(word) => {
            if word == b"lost".as_slice() {
                queries_in(parts)
            } else {
                None
            }
        }
    }
}

/// Reads a Deliver after its word, `T` and its lost queries. Does not allocate.
fn deliver_in(seat: u32, parts: Pieces<'_>) -> Option<JournalLine>
    ensures { result ≡ deliver_in seat parts.entry }
{
    let mut parts = parts;
    let ticket = next_number(&mut parts)?;
    let lost = lost_in(parts)?;
    Some(JournalLine::Deliver { seat, ticket, lost })
}

/// Reads a Cancel after its word, `Q`. Does not allocate.
fn cancel_in(seat: u32, parts: Pieces<'_>) -> Option<JournalLine>
    ensures { result ≡ cancel_in seat parts.entry }
{
    let mut parts = parts;
    let q = next_query(&mut parts)?;
    if !parts.is_done() {
        return None;
    }
    Some(JournalLine::Cancel { seat, q })
}

/// Reads a Collect after its word, `Q`. Does not allocate.
fn collect_in(seat: u32, parts: Pieces<'_>) -> Option<JournalLine>
    ensures { result ≡ collect_in seat parts.entry }
{
    let mut parts = parts;
    let q = next_query(&mut parts)?;
    if !parts.is_done() {
        return None;
    }
    Some(JournalLine::Collect { seat, q })
}

/// Reads a Close after its word, if nothing follows. Does not allocate.
fn close_in(seat: u32, parts: Pieces<'_>) -> Option<JournalLine>
    ensures { result ≡ close_in seat parts.entry }
{
    if !parts.is_done() {
        return None;
    }
    Some(JournalLine::Close { seat })
}

/// Reads an entry other than an Attach after its word. Does not allocate.
fn other_in(seat: u32, word: &[u8], parts: Pieces<'_>) -> Option<JournalLine>
    ensures { result ≡ other_in seat word.now parts.entry }
{
    if word == b"take".as_slice() {
        take_in(seat, parts)
    } else if word == b"deliver".as_slice() {
        deliver_in(seat, parts)
    } else if word == b"cancel".as_slice() {
        cancel_in(seat, parts)
    } else if word == b"collect".as_slice() {
        collect_in(seat, parts)
    } else if word == b"close".as_slice() {
        close_in(seat, parts)
    } else {
        None
    }
}

/// Reads an entry after its word. Allocates memory for the chunks of an Attach.
fn event_in(
    alloc: Global,
    seat: u32,
    word: &[u8],
    parts: Pieces<'_>,
) -> Result<Option<JournalLine>, Memory>
    ensures { IfOk result (λ entry. entry ≡ event_in seat word.now parts.entry) }
{
    if word == b"attach".as_slice() {
        attach_in(alloc, seat, parts)
    } else {
        Ok(other_in(seat, word, parts))
    }
}

/// Parses a line as an entry. Allocates memory for the chunks of an Attach.
pub(crate) fn entry_of(alloc: Global, text: &[u8]) -> Result<Option<JournalLine>, Memory>
    ensures { IfOk result (λ entry. entry ≡ entry_of text.now) }
{
    let mut parts = Pieces::new(text, b' ');
    let Some(seat) = next_number(&mut parts) else {
        return Ok(None);
    };
    match parts.next() {
        Some(word) => event_in(alloc, seat, word, parts),
        None => Ok(None),
    }
}

/// Reads the number after the word `ring`, if a ring may have that many chunks. Does not allocate.
fn ring_after(word: &[u8], parts: Pieces<'_>) -> Option<u32>
    ensures value { result ≡ ring_after word.now parts.entry }
    ensures low { IfSome result (λ ring. ring ≤ RING_MOST) }
{
    let mut parts = parts;
    let ring = next_number(&mut parts)?;
    if word != b"ring".as_slice() || ring > RING_MOST || !parts.is_done() {
        return None;
    }
    Some(ring)
}

/// Parses the first line, `ring N`. Does not allocate.
pub(crate) fn ring_of(text: &[u8]) -> Option<u32>
    ensures value { result ≡ ring_of text.now }
    ensures low { IfSome result (λ ring. ring ≤ RING_MOST) }
{
    let mut parts = Pieces::new(text, b' ');
    let word = parts.next()?;
    ring_after(word, parts)
}
