//! What no clause says: that a failing output or input is a fault, that threads meet, and that queries which run
//! together share a chunk's scan.
use crate::tests::gates::TestGate;
use crate::tests::runs::{is_written, run_failing, script_run, sink_of, status_past};
use sky_io::{ListGate, MemSink, NoteGate, StepGate};
use std::alloc::Global;
use std::process::Abort;
use std::sync::Wait;
use std::test::Fail;
use std::thread::Threads;

mod classes;
mod gates;
mod journal;
mod raw_calls;
mod runs;
mod sources;

pub(crate) const SKY: &[u8] = b"overlap 5\nstripe -268435472 4 2 2\nstripe 0 4 2 2\n";

pub(crate) const CATALOGUE: &[u8] =
    b"objectId,x,y,z,flux\n1,268435456,0,0,10\n2,268435456,3,0,20\n3,268435456,0,4,30\n4,268435456,-3,0,40\n5,268435456,0,-1,50\n6,0,0,268435456,60\n";

pub(crate) const SCRIPT: &[u8] = b"SELECT objectId FROM Object\n";

pub(crate) const ANSWER: &[u8] = b"query 1\nobjectId\n1\n2\n3\n4\n5\n6\n6 rows, 3 chunks\n";

// The first pass, from 0, that was not made by worker 0 over the chunk in its place, or that has none; `None` if the passes
// are those of the chunks, in their order.
pub(crate) fn first_other(gate: &mut NoteGate, chunks: &[u32]) -> Option<u32> {
    let mut pass = 0u32;
    for chunk in chunks {
        if gate.noted(pass) != Some((0, *chunk)) {
            return Some(pass);
        }
        pass = pass.wrapping_add(1);
    }
    match gate.noted(pass) {
        Some(_) => Some(pass),
        None => None,
    }
}

// A sink that fails at one call. A put that fails there keeps some bytes of its piece, or none by `MemSink::new`.
fn failing_sink(alloc: Global, call: u64, keep: u32) -> Result<MemSink, Fail> {
    let failing = vec![in alloc; call]?;
    if keep == 0 {
        return Ok(MemSink::new(alloc, 1000, failing)?);
    }
    Ok(MemSink::cutting(alloc, 1000, failing, keep)?)
}

// The status of the script's run over a sink that fails at one call, and whether its bytes are a prefix of the answer.
// If the first call fails, their number is exactly what a failing put keeps.
fn run_failing_at<R: Threads + Wait + Sync>(
    rt: &R,
    alloc: Global,
    call: u64,
    keep: u32,
) -> Result<(u8, bool), Fail> {
    let texts = (SKY, CATALOGUE, SCRIPT);
    let sink = failing_sink(alloc, call, keep)?;
    let mut run = script_run(alloc, ("query", "0"), texts, sink)?;
    let status = status_past(rt, alloc, &mut run, &TestGate::Open);
    let bytes = run.sink.bytes();
    let is_kept = call > 1 || bytes.len() == keep as usize;
    let is_whole = status > 0 || bytes == ANSWER;
    Ok((status, ANSWER.starts_with(bytes) && is_kept && is_whole))
}

// The number of the first call that the script's run does not make: a sink that fails there changes nothing.
fn calls_until_done<R: Abort + Threads + Wait + Sync>(
    rt: &R,
    alloc: Global,
    keep: u32,
) -> Result<u64, Fail> {
    for call in 1..1000 {
        let (status, is_prefix) = run_failing_at(rt, alloc, call, keep)?;
        assert!(rt; is_prefix, "at call {call}, {keep} bytes kept");
        if status == 0 {
            return Ok(call);
        }
        assert_eq!(rt; status, 8, "at call {call}");
    }
    Err(Fail::new("no call is the last"))
}

#[test]
fn a_sink_that_fails_at_any_call_has_a_prefix_of_the_answer(rt: HostRuntime) -> Result<(), Fail> {
    for keep in [0, 3] {
        let call = calls_until_done(&rt, rt.alloc(), keep)?;
        assert!(rt; call > 2, "a put and a flush at least");
    }
    Ok(())
}

// Whether the script's run over a sink with room for a number of bytes is a fault, and they are the first ones of the answer.
fn is_filled<R: Threads + Wait + Sync>(rt: &R, alloc: Global, room: usize) -> Result<bool, Fail> {
    let texts = (SKY, CATALOGUE, SCRIPT);
    let sink = MemSink::cutting(alloc, room, Vec::new(alloc), 1000)?;
    let mut run = script_run(alloc, ("query", "0"), texts, sink)?;
    let found = status_past(rt, alloc, &mut run, &TestGate::Open);
    let bytes = run.sink.bytes();
    Ok(found == 8 && bytes.len() == room && ANSWER.starts_with(bytes))
}

#[test]
fn a_full_sink_has_what_it_has_room_for(rt: HostRuntime) -> Result<(), Fail> {
    for room in 0..ANSWER.len() {
        assert!(rt; is_filled(&rt, rt.alloc(), room)?, "room {room}");
    }
    Ok(())
}

// The status of the script's run over a shelf that fails at its second fetch, and how many bytes it writes.
fn run_with_failing_fetch<R: Threads + Wait + Sync>(
    rt: &R,
    alloc: Global,
) -> Result<(u8, usize), Fail> {
    let mut run = run_failing(
        alloc,
        &["query", "sky", "csv", "script", "0"],
        &[("sky", SKY), ("csv", CATALOGUE), ("script", SCRIPT)],
        vec![in alloc; 2]?,
        sink_of(alloc, 1000)?,
    )?;
    let found = status_past(rt, alloc, &mut run, &TestGate::Open);
    Ok((found, run.sink.bytes().len()))
}

#[test]
fn a_shelf_that_fails_at_its_second_fetch_is_a_fault(rt: HostRuntime) -> Result<(), Fail> {
    assert_eq!(rt; run_with_failing_fetch(&rt, rt.alloc())?, (7, 0));
    Ok(())
}

// Runs the script by a command with two workers, of whom two have to be at the gate at one time.
pub(crate) fn meet_by<R: Abort + Threads + Wait + Sync>(
    rt: &R,
    alloc: Global,
    command: &str,
) -> Result<(), Fail> {
    let gate = StepGate::new(2, 10000000);
    let step = TestGate::Step(&gate);
    let texts = (SKY, CATALOGUE, SCRIPT);
    assert!(rt; is_written(rt, alloc, (command, "2"), texts, &step, ANSWER)?);
    assert_eq!(rt; (gate.met(), gate.given_up()), (true, false));
    Ok(())
}

#[test]
fn two_work_on_chunks_at_one_time(rt: HostRuntime) -> Result<(), Fail> {
    meet_by(&rt, rt.alloc(), "query")
}

// A script of 65 queries.
fn counting(alloc: Global) -> Result<Vec<u8>, Fail> {
    let mut text = Vec::new(alloc);
    for _ in 0..65 {
        text.extend_from_slice(b"SELECT COUNT(*) FROM Object\n")?;
    }
    Ok(text)
}

// The status of a command over that script, with no workers, past a gate.
fn count_past<R: Threads + Wait + Sync>(
    rt: &R,
    alloc: Global,
    command: &str,
    gate: &TestGate<'_>,
) -> Result<u8, Fail> {
    let script = counting(alloc)?;
    let texts = (SKY, CATALOGUE, script.as_slice());
    let mut run = script_run(alloc, (command, "0"), texts, sink_of(alloc, 10000)?)?;
    Ok(status_past(rt, alloc, &mut run, gate))
}

// Runs 65 queries by a command. 64 of them run together, so that each chunk is passed once for them all.
pub(crate) fn count_by<R: Abort + Threads + Wait + Sync>(
    rt: &R,
    alloc: Global,
    command: &str,
) -> Result<(), Fail> {
    let mut gate = NoteGate::new();
    let found = count_past(rt, alloc, command, &TestGate::Note(&gate))?;
    let other = first_other(&mut gate, &[0, 4, 7, 0, 4, 7]);
    assert_eq!(rt; (found, other), (0, None));
    Ok(())
}

#[test]
fn a_chunk_is_passed_once_for_all_queries_that_run(rt: HostRuntime) -> Result<(), Fail> {
    count_by(&rt, rt.alloc(), "query")
}

// Three queries, the second of which is cancelled.
const CANCELLING: &[u8] =
    b"SELECT objectId FROM Object\nSELECT COUNT(*) FROM Object\nSELECT MAX(flux) FROM Object\ncancel 2\nwait 1\n";

const CANCELLED: &[u8] = b"query 2\ncancelled\n";

const COUNTED: &[u8] = b"query 2\nCOUNT(*)\n6\n1 rows, 3 chunks\n";

const LAST: &[u8] = b"query 3\nMAX(flux)\n60\n1 rows, 3 chunks\n";

// Whether it is the transcript of the three queries: the second one is cancelled or answered.
fn is_transcript(bytes: &[u8]) -> bool {
    let Some(rest) = bytes.strip_prefix(ANSWER) else {
        return false;
    };
    match rest.strip_suffix(LAST) {
        Some(second) => second == CANCELLED || second == COUNTED,
        None => false,
    }
}

// Whether the three queries, by two workers in an order that is held, are answered, but for the one that is cancelled.
fn is_answered_in<R: Threads + Wait + Sync>(
    rt: &R,
    alloc: Global,
    order: [u32; 3],
) -> Result<bool, Fail> {
    let gate = ListGate::new(order.to_vec(alloc)?, 10000);
    let list = TestGate::List(&gate);
    let texts = (SKY, CATALOGUE, CANCELLING);
    let mut run = script_run(alloc, ("query", "2"), texts, sink_of(alloc, 1000)?)?;
    let found = status_past(rt, alloc, &mut run, &list);
    Ok(found == 0 && is_transcript(run.sink.bytes()))
}

#[test]
fn no_order_of_workers_changes_what_is_not_cancelled(rt: HostRuntime) -> Result<(), Fail> {
    for order in [[1, 2, 1], [2, 2, 0], [0, 0, 0]] {
        assert!(rt; is_answered_in(&rt, rt.alloc(), order)?, "order {order:?}");
    }
    Ok(())
}
