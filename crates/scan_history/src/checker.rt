//! Checks a journal, entry by entry.
ghost use Rattle.std.specs.Prelude.{◌≡◌, ◌<◌, ◌≤◌, length, count_by, cond, IfOk, IfErr, OnOk};
ghost use Rattle.sky_io.specs.Stops.{IfBad};
ghost use Rattle.scan_rules.specs.declared.limits.TheConstants.{LINES_BOUND, RING_MOST};
ghost use Rattle.scan_rules.specs.Lines.{is_attach, takes};
ghost use Rattle.scan_history.specs.Checked.{IsRight, NamesFirstWrong, ServesRightly, tally_of};
ghost use Rattle.scan_history.specs.Replayed.{IsRightSoFar, Follows, StopsAt};

use crate::fault::HistoryFault;
use crate::tally::Tally;
use scan_core::Replay;
use scan_rules::{Journal, JournalLine};
use sky_io::Stop;
use std::alloc::Global;

/// Returns the counts of a right journal, and otherwise the line of the first entry that may not follow those before it.
/// In a right journal each query is served only chunks of its list, each at most once, and all of them if it is done.
/// Allocates memory.
pub fn check(alloc: Global, journal: &Journal) -> Result<Tally, Stop<HistoryFault>>
    requires { journal.now.ring ≤ RING_MOST }
    ensures right { OnOk result (IsRight journal.now) }
    ensures tally { IfOk result (λ tally. tally ≡ tally_of journal.now.lines) }
    ensures served { OnOk result (ServesRightly journal.now.lines) }
    ensures wrong { IfErr result (λ stop. IfBad stop (NamesFirstWrong journal.now)) }
    ensures refused { IfErr result (λ stop. IfBad stop (λ fault. IsRight journal.now → ⊥)) }
{
    let lines = journal.lines.as_slice();
    let mut replay = Replay::new(alloc, journal.ring, lines)?;
    for position in 0..lines.len() {
        replay_next(&mut replay, position)?;
    }
    Ok(tally_of(lines))
}

/// Replays the next entry, at this position from 0, or returns its line if it may not follow. Allocates memory.
fn replay_next(replay: &mut Replay<'_>, position: usize) -> Result<(), Stop<HistoryFault>>
    requires left { 0 < length replay.old.rest }
    requires so_far { IsRightSoFar replay.old position }
    ensures ok { OnOk result (Follows replay.old replay.new) }
    ensures bad { IfErr result (λ stop. IfBad stop (StopsAt replay.old)) }
{
    if replay.step()? {
        return Ok(());
    }
    Err(Stop::Bad(HistoryFault::NotAStep {
        line: position as u32 + 2,
    }))
}

/// Returns 1 for an Attach, and otherwise 0.
fn one_attach(line: &JournalLine) -> u32
    ensures { result ≡ cond (is_attach line.now) 1 0 }
{
    match line {
        JournalLine::Attach { .. } => 1,
        _ => 0,
    }
}

/// Returns 1 for a Take, and otherwise 0.
fn one_take(line: &JournalLine) -> u32
    ensures { result ≡ cond (takes line.now) 1 0 }
{
    match line {
        JournalLine::Take { .. } => 1,
        _ => 0,
    }
}

/// Counts the Attaches.
fn attaches_in(lines: &[JournalLine]) -> u32
    requires { length lines.now < LINES_BOUND }
    ensures { result ≡ count_by is_attach lines.now }
{
    let mut count = 0u32;
    for line in lines {
        count += one_attach(line);
    }
    count
}

/// Counts the Takes.
fn takes_in(lines: &[JournalLine]) -> u32
    requires { length lines.now < LINES_BOUND }
    ensures { result ≡ count_by takes lines.now }
{
    let mut count = 0u32;
    for line in lines {
        count += one_take(line);
    }
    count
}

/// Counts the entries, the Attaches and the Takes.
fn tally_of(lines: &[JournalLine]) -> Tally
    requires { length lines.now < LINES_BOUND }
    ensures { result ≡ tally_of lines.now }
{
    Tally {
        entries: lines.len() as u32,
        queries: attaches_in(lines),
        takes: takes_in(lines),
    }
}
