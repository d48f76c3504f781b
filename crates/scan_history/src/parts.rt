//! The parts of a line of a journal's text, read one by one.
ghost use Rattle.std.specs.Prelude.{◌≡◌, [], ◌∷◌, ◌++◌, Option, Some, None, IfSome, IfNone, IfOk, option_map, length};
ghost use Rattle.std.specs.List.{last_or};
ghost use Rattle.scan_history.specs.Parts.{number_of, query_of, is_query, is_above, chunks_in, queries_in};
ghost use Rattle.scan_history.specs.Cut.{IfFirst, IfNoFirst};

use crate::limits::{NUMBER_BOUND, NUMBER_DIGITS_MOST};
use scan_rules::limits::QUERY_MOST;
use scan_rules::{ChunkSet, QuerySet};
use sky_io::Memory;
use sky_text::{Pieces, read_natural};
use std::alloc::Global;

/// Parses a number: 1 to 10 digits, below 2^32. Does not allocate.
fn number_of(part: &[u8]) -> Option<u32>
    ensures { result ≡ number_of part.now }
{
    match read_natural(part, NUMBER_DIGITS_MOST) {
        Some(number) if number < NUMBER_BOUND => Some(number as u32),
        _ => None,
    }
}

/// Parses a query's number, 1 to 255. Does not allocate.
fn query_of(part: &[u8]) -> Option<u32>
    ensures { result ≡ query_of part.now }
{
    match number_of(part) {
        Some(q) if 1 <= q && q <= QUERY_MOST => Some(q),
        _ => None,
    }
}

/// Whether the number is above the last one, if there is one. Does not allocate.
fn is_above(last: Option<u32>, number: u32) -> bool
    ensures { result ≡ is_above last number }
{
    match last {
        None => true,
        Some(last) => last < number,
    }
}

/// Reads the next part, which has to be a number. Does not allocate.
pub(crate) fn next_number(parts: &mut Pieces<'_>) -> Option<u32>
    ensures some { IfSome result (IfFirst number_of parts.old parts.new) }
    ensures none { IfNone result (IfNoFirst number_of parts.old) }
{
    number_of(parts.next()?)
}

/// Reads the next part, which has to be a query's number. Does not allocate.
pub(crate) fn next_query(parts: &mut Pieces<'_>) -> Option<u32>
    ensures some { IfSome result (IfFirst query_of parts.old parts.new) }
    ensures none { IfNone result (IfNoFirst query_of parts.old) }
{
    query_of(parts.next()?)
}

/// Reads all parts as ascending chunk numbers, if they are that. Allocates memory.
pub(crate) fn chunks_in(alloc: Global, parts: Pieces<'_>) -> Result<Option<ChunkSet>, Memory>
    ensures { IfOk result (λ chunks. chunks ≡ chunks_in parts.entry) }
{
    let mut parts = parts;
    let mut chunks = ChunkSet::new(alloc);
    let mut last = None;
    while let Some(part) = parts.next() {
        let Some(chunk) = number_of(part) else {
            return Ok(None);
        };
        if !is_above(last, chunk) {
            return Ok(None);
        }
        chunks.push(chunk)?;
        last = Some(chunk);
    }
    Ok(Some(chunks))
}

/// Reads all parts as ascending query numbers, at least one, if they are that. Does not allocate.
pub(crate) fn queries_in(parts: Pieces<'_>) -> Option<QuerySet>
    ensures { result ≡ queries_in parts.entry }
{
    if parts.is_done() {
        return None;
    }
    let mut parts = parts;
    let mut queries = QuerySet::new();
    let mut last = None;
    while let Some(part) = parts.next() {
        let q = query_of(part)?;
        if !is_above(last, q) {
            return None;
        }
        queries.add(q);
        last = Some(q);
    }
    Some(queries)
}
