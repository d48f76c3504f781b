//! The journal of a session shows that two threads work on chunks at one time.
use crate::tests::gates::TestGate;
use crate::tests::runs::{script_run, sink_of, status_past};
use crate::tests::{CATALOGUE, SCRIPT, SKY};
use scan_history::read_journal;
use scan_rules::{Journal, JournalLine};
use sky_io::StepGate;
use std::alloc::Global;
use std::sync::Wait;
use std::test::Fail;
use std::thread::Threads;
use text_rules::limits::TEXT_MOST;

// The journal that was written.
fn journal_in(alloc: Global, text: &[u8]) -> Result<Journal, Fail> {
    if text.len() > TEXT_MOST {
        return Err(Fail::new("a journal that is too long"));
    }
    match read_journal(alloc, text) {
        Ok(journal) => Ok(journal),
        Err(_) => Err(Fail::new("no journal")),
    }
}

// Whether one of the lines delivers the task of this ticket.
fn is_delivered(lines: &[JournalLine], number: u32) -> bool {
    for line in lines {
        if let JournalLine::Deliver { ticket, .. } = line {
            if *ticket == number {
                return true;
            }
        }
    }
    false
}

// Whether a task of another seat is in flight after these lines.
fn is_another_in_flight(lines: &[JournalLine], own: u32) -> bool {
    for line in lines {
        if let JournalLine::Take { seat, ticket, .. } = line {
            if *seat != own && !is_delivered(lines, *ticket) {
                return true;
            }
        }
    }
    false
}

// Whether two takes of different seats are before the deliver of either.
fn is_at_one_time(lines: &[JournalLine]) -> bool {
    for place in 0..lines.len() {
        if let JournalLine::Take { seat, .. } = &lines[place] {
            if is_another_in_flight(&lines[..place], *seat) {
                return true;
            }
        }
    }
    false
}

// Whether two work at one time by the journal that was written.
fn is_shared(alloc: Global, text: &[u8]) -> Result<bool, Fail> {
    let journal = journal_in(alloc, text)?;
    Ok(is_at_one_time(journal.lines.as_slice()))
}

// Whether the script's run is traced, and two work at one time by its journal.
fn is_traced<R: Threads + Wait + Sync>(
    rt: &R,
    alloc: Global,
    gate: &TestGate<'_>,
) -> Result<bool, Fail> {
    let texts = (SKY, CATALOGUE, SCRIPT);
    let mut run = script_run(alloc, ("trace", "2"), texts, sink_of(alloc, 4000)?)?;
    let found = status_past(rt, alloc, &mut run, gate);
    Ok(found == 0 && is_shared(alloc, run.sink.bytes())?)
}

#[test]
fn two_work_on_chunks_at_one_time_in_the_journal(rt: HostRuntime) -> Result<(), Fail> {
    let gate = StepGate::new(2, 10000000);
    assert!(rt; is_traced(&rt, rt.alloc(), &TestGate::Step(&gate))?);
    assert!(rt; gate.met());
    Ok(())
}
