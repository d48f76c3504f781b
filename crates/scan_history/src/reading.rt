//! Parses a journal from its text, line by line, in one pass.
ghost use Rattle.std.specs.Prelude.{◌≡◌, ◌≤◌, [], Ok, Err, Some, IfOk, IfErr, length};
ghost use Rattle.text_rules.specs.declared.limits.TheConstants.{TEXT_MOST};
ghost use Rattle.sky_io.specs.Stops.{IfBad};
ghost use Rattle.scan_rules.specs.declared.limits.TheConstants.{RING_MOST};
ghost use Rattle.scan_history.specs.Texts.{journal_of, entries_on, fault_on};
ghost use Rattle.scan_history.specs.Adding.{Adds};
ghost use Rattle.sky_text.specs.LineItems.{line_of};

use crate::entry::{entry_of, ring_of};
use crate::fault::HistoryFault;
use scan_rules::{Journal, JournalLine, JournalLines};
use sky_io::Stop;
use sky_text::{Line, Lines};
use std::alloc::Global;

/// Parses a text of at most 2^29 bytes as a journal, or returns its first malformed line. Allocates memory.
pub fn read_journal(alloc: Global, text: &[u8]) -> Result<Journal, Stop<HistoryFault>>
    requires { length text.now ≤ TEXT_MOST }
    ensures ok { IfOk result (λ journal. journal_of text.now ≡ Ok journal) }
    ensures ring { IfOk result (λ journal. journal.ring ≤ RING_MOST) }
    ensures bad { IfErr result (λ stop. IfBad stop (λ fault. journal_of text.now ≡ Err fault)) }
{
    let mut lines = Lines::new(text);
    let Some(first) = lines.next() else {
        return Err(Stop::Bad(HistoryFault::Syntax { line: 1 }));
    };
    let Some(ring) = ring_of(first.text) else {
        return Err(Stop::Bad(HistoryFault::Syntax { line: first.number }));
    };
    match entries_on(alloc, lines) {
        Ok(entries) => Ok(Journal {
            ring,
            lines: JournalLines::of(entries),
        }),
        Err(stop) => Err(stop),
    }
}

/// Parses the lines as entries, or returns the first malformed one. Allocates memory.
fn entries_on(alloc: Global, lines: Lines<'_>) -> Result<Vec<JournalLine>, Stop<HistoryFault>>
    ensures ok { IfOk result (λ entries. entries_on lines.entry ≡ Ok entries.items) }
    ensures bad { IfErr result (λ stop. IfBad stop (λ fault. entries_on lines.entry ≡ Err fault)) }
{
    let mut lines = lines;
    let mut entries = Vec::new(alloc);
    while let Some(line) = lines.next() {
        add_entry(alloc, &mut entries, &line)?;
    }
    Ok(entries)
}

/// Appends the entry of a line, or returns that the line is malformed. Allocates memory. After `Err` nothing is
/// appended.
fn add_entry(
    alloc: Global,
    entries: &mut Vec<JournalLine>,
    line: &Line<'_>,
) -> Result<(), Stop<HistoryFault>>
    ensures ok { IfOk result (λ _. Adds (line_of line.now) entries.old.items entries.new.items) }
    ensures bad { IfErr result (λ stop.
        IfBad stop (λ fault. fault_on (line_of line.now) ≡ Some fault)) }
{
    match entry_of(alloc, line.text)? {
        Some(entry) => Ok(entries.push(entry)?),
        None => Err(Stop::Bad(HistoryFault::Syntax { line: line.number })),
    }
}
