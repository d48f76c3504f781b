//! The rows of a text, read in parts by several threads.
//!
//! A text with no double quote is cut after line feeds: the records of the parts are then those of the text, part by part.
//! Each part is read into columns of its own, and these are joined in order. If a part has a quote, a record with a fault or
//! too many rows, or memory is out, nothing of it is kept, and one thread reads the whole text: so no fault and no row number
//! crosses threads, and the first fault is found as ever.
ghost use Rattle.std.specs.Prelude.{◌≡◌, ◌≤◌, ◌<◌, ◌+◌, ℕ, List, [], ◌∷◌, ◌++◌, length, IfSome, IfOk, IfErr, Some, None, Ok, Err};
ghost use Rattle.std.specs.Bool.{OnFalse};
ghost use Rattle.std.specs.Thread.{IsSend, IsSync};
ghost use Rattle.csv.specs.Reading.{default_config, records, strip_bom};
ghost use Rattle.sky_io.specs.Stops.{IfBad};
ghost use Rattle.table_load.specs.InParts.{AreParts, IsReadUnder, IsReadWhole};
ghost use Rattle.table_rules.specs.Records.{table_of};
ghost use Rattle.record_text.specs.Judged.{Read};
ghost use Rattle.text_rules.specs.declared.limits.TheConstants.{TEXT_MOST};
ghost use Rattle.table_rules.specs.declared.limits.TheConstants.{ROWS_MOST};

use crate::cut::{cut, has_quote, may_have_mark};
use crate::gathering::Gathering;
use crate::header::read_header;
use crate::rows::read_rest;
use crate::table::{RowSorter, load_alone};
use record_text::{Record, read_next, reader_of};
use sky_io::Stop;
use std::alloc::Global;
use std::thread::{Threads, join};
use table_rules::LoadFault;
use table_rules::limits::ROWS_MOST;

/// A shorter text, in bytes, is read by one thread: to start another costs more than it gains.
const SHORT: usize = 1 << 16;

/// Whether one thread reads a text of this length, in bytes.
fn is_one_part(threads: u32, bytes: usize) -> bool
    ensures { OnFalse result (2 ≤ threads) }
{
    threads < 2 || bytes < SHORT
}

/// The rows of a part with these extra columns.
fn part_rows<G: Gathering>(alloc: Global, schema: G::Schema, part: &[u8]) -> Option<G>
    requires small { length part.now ≤ TEXT_MOST }
    requires plain { strip_bom part.now ≡ part.now }
    ensures names { IfSome result (λ all. G.names all ≡ G.names_in schema) }
    ensures read { IfSome result (λ all.
        Read G.form (length G.form.first + length (G.names_in schema)) (G.rows all) None
        (records default_config part.now)) }
    ensures whole { IfSome result G.is_whole }
{
    let reader = reader_of(alloc, part);
    let Ok(mut gathered) = G::without_rows(alloc, schema) else {
        return None;
    };
    match read_rest(reader, Record::new(alloc), &mut gathered) {
        Ok(()) => Some(gathered),
        Err(_) => None,
    }
}

/// The rows of a part under a header.
fn read_part<G: Gathering>(alloc: Global, header: &Record<'_>, part: &[u8]) -> Option<G>
    requires small { length part.now ≤ TEXT_MOST }
    ensures read { IfSome result (λ all.
        IsReadUnder G.form header.now (G.names all) (G.rows all) part.now) }
    ensures whole { IfSome result G.is_whole }
{
    if may_have_mark(part) {
        return None;
    }
    if has_quote(part) {
        return None;
    }
    match read_header::<G>(alloc, header) {
        Ok(schema) => part_rows::<G>(alloc, schema, part),
        Err(_) => None,
    }
}

/// The rows of two parts, the first part's before the second's.
fn joined<G: Gathering>(alloc: Global, front: G, behind: &G) -> Option<G>
    requires whole { G.is_whole front }
    requires other { G.is_whole behind.now }
    requires wide { G.names behind.now ≡ G.names front }
    ensures names { IfSome result (λ all. G.names all ≡ G.names front) }
    ensures few { IfSome result (λ all. length (G.rows all) ≤ ROWS_MOST) }
    ensures rows { IfSome result (λ all. G.rows all ≡ G.rows front ++ G.rows behind.now) }
    ensures whole { IfSome result G.is_whole }
{
    let count = front.count();
    if count > ROWS_MOST {
        return None;
    }
    if behind.count() > ROWS_MOST - count {
        return None;
    }
    match front.followed_by(alloc, behind) {
        Ok(rows) => Some(rows),
        Err(_) => None,
    }
}

/// The header of a text, if this line of it has just that record.
fn header_of(alloc: Global, line: &[u8]) -> Option<Record<'_>>
    requires small { length line.now ≤ TEXT_MOST }
    ensures { IfSome result (λ header.
        records default_config (strip_bom line.now) ≡ header ∷ []) }
{
    let mut reader = reader_of(alloc, line);
    let mut header = Record::new(alloc);
    let Ok(found) = read_next(&mut reader, &mut header) else {
        return None;
    };
    if !found {
        return None;
    }
    let mut second = Record::new(alloc);
    let Ok(more) = read_next(&mut reader, &mut second) else {
        return None;
    };
    if more {
        return None;
    }
    Some(header)
}

/// The rows of a text from those of its two parts.
#[tactic(auto, using(crate::proofs::Joins::some_both))]
fn both_parts<G: Gathering>(
    alloc: Global,
    header: &Record<'_>,
    text: &[u8],
    front: &[u8],
    behind: &[u8],
    first: G,
    second: G,
) -> Option<G>
    requires parts { AreParts text.now front.now behind.now }
    requires first { IsReadUnder G.form header.now (G.names first) (G.rows first)
        front.now }
    requires second { IsReadUnder G.form header.now (G.names second) (G.rows second)
        behind.now }
    requires whole { G.is_whole first }
    requires other { G.is_whole second }
    ensures read { IfSome result (λ all.
        IsReadUnder G.form header.now (G.names all) (G.rows all) text.now) }
    ensures whole { IfSome result G.is_whole }
{
    joined(alloc, first, &second)
}

/// The number of bytes that some of the threads read, about their part of all bytes.
fn share(bytes: usize, threads: u32, some: u32) -> usize
    requires { 0 < threads }
{
    (bytes / threads as usize).saturating_mul(some as usize)
}

/// The rows of the text after a header, read by the given number of threads.
#[tactic(auto, using(crate::proofs::Joins::small_front, crate::proofs::Joins::small_behind))]
fn read_parts<R: Threads + Sync, G: Gathering + Send>(
    rt: &R,
    alloc: Global,
    threads: u32,
    header: &Record<'_>,
    text: &[u8],
) -> Option<G>
where
    G::Schema: Send,
    requires small { length text.now ≤ TEXT_MOST }
    ensures read { IfSome result (λ all.
        IsReadUnder G.form header.now (G.names all) (G.rows all) text.now) }
    ensures whole { IfSome result G.is_whole }
{
    if is_one_part(threads, text.len()) {
        return read_part::<G>(alloc, header, text);
    }
    let low = threads / 2;
    let high = threads - low;
    let Some((front, behind)) = cut(text, share(text.len(), threads, low)) else {
        return read_part::<G>(alloc, header, text);
    };
    let (first, second) = join(
        rt,
        || -> Option<G>
            requires { IsSync R.row × IsSend G.row × (length front.now ≤ TEXT_MOST) }
            ensures read { IfSome result (λ all. IsReadUnder G.form
                header.entry.now (G.names all) (G.rows all) front.entry.now) }
            ensures whole { IfSome result G.is_whole }
        { read_parts::<R, G>(rt, alloc, low, header, front) },
        || -> Option<G>
            requires { IsSync R.row × IsSend G.row × (length behind.now ≤ TEXT_MOST) }
            ensures read { IfSome result (λ all. IsReadUnder G.form
                header.entry.now (G.names all) (G.rows all) behind.entry.now) }
            ensures whole { IfSome result G.is_whole }
        { read_parts::<R, G>(rt, alloc, high, header, behind) },
    );
    let Some(first) = first else {
        return None;
    };
    let Some(second) = second else {
        return None;
    };
    both_parts(alloc, header, text, front, behind, first, second)
}

/// The rows of a text, in the order of the text, read by the given number of threads; `None` if it can't be read in parts.
#[tactic(auto, using(crate::proofs::Joins::some_line, crate::proofs::Joins::small_front, crate::proofs::Joins::small_behind))]
fn read_lines<R: Threads + Sync, G: Gathering + Send>(
    rt: &R,
    alloc: Global,
    threads: u32,
    text: &[u8],
) -> Option<G>
where
    G::Schema: Send,
    requires small { length text.now ≤ TEXT_MOST }
    ensures read { IfSome result (λ all.
        IsReadWhole G.form (G.names all) (G.rows all) text.now) }
    ensures whole { IfSome result G.is_whole }
{
    let Some((line, rest)) = cut(text, 0) else {
        return None;
    };
    if has_quote(line) {
        return None;
    }
    match header_of(alloc, line) {
        Some(header) => read_parts::<R, G>(rt, alloc, threads, &header, rest),
        None => None,
    }
}

/// Reads the table of a text of at most 2^29 bytes by the given number of threads, this one among them: its rows in ascending
/// id, or its first fault. A thread that can't be started costs time alone. Allocates memory for the rows and for those of
/// the parts, and for what putting them in order and finding a repeated id need. After an error nothing is kept.
pub fn load_table<R: Threads + Sync, G: Gathering + Send, S: RowSorter<G>>(
    rt: &R,
    threads: u32,
    sorter: &S,
    alloc: Global,
    text: &[u8],
) -> Result<G::Table, Stop<LoadFault>>
where
    G::Schema: Send,
    requires can { S.can_sort }
    requires small { length text.now ≤ TEXT_MOST }
    ensures ok { IfOk result (λ all.
        table_of G.form G.made (records default_config (strip_bom text.now)) ≡ Ok all) }
    ensures bad { IfErr result (λ stop. IfBad stop (λ fault.
        table_of G.form G.made (records default_config (strip_bom text.now)) ≡ Err fault)) }
{
    if is_one_part(threads, text.len()) {
        return load_alone::<G, S>(sorter, alloc, text);
    }
    match read_lines::<R, G>(rt, alloc, threads, text) {
        Some(gathered) => sorter.in_order(alloc, gathered),
        None => load_alone::<G, S>(sorter, alloc, text),
    }
}
