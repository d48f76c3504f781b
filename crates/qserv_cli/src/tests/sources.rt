//! The command `sources`: threads meet, and queries share a chunk's scan.
use crate::tests::gates::TestGate;
use crate::tests::runs::{run_of, sink_of, writes};
use crate::tests::{CATALOGUE, SKY, first_other};
use sky_io::{NoteGate, StepGate};
use std::alloc::Global;
use std::sync::Wait;
use std::test::Fail;
use std::thread::Threads;

/// Five sources, the fourth of an object that the catalogue lacks.
const SOURCES: &[u8] =
    b"sourceId,objectId,flux,t\n101,1,11,1\n102,4,41,1\n103,1,12,2\n104,99,5,2\n105,5,51,2\n";

/// Every object with each of its sources.
const ONCE: &[u8] =
    b"SELECT o.objectId,s.sourceId,s.flux-o.flux FROM Object o,Source s WHERE o.objectId=s.objectId\n";

const ANSWER: &[u8] =
    b"query 1\no.objectId,s.sourceId,s.flux-o.flux\n1,101,1\n1,103,2\n4,102,1\n5,105,1\n4 rows, 3 chunks\n";

const ANSWERS: &[u8] =
    b"query 1\no.objectId,s.sourceId,s.flux-o.flux\n1,101,1\n1,103,2\n4,102,1\n5,105,1\n4 rows, 3 chunks\nquery 2\no.objectId,s.sourceId,s.flux-o.flux\n1,101,1\n1,103,2\n4,102,1\n5,105,1\n4 rows, 3 chunks\n";

/// The query twice.
const TWICE: &[u8] =
    b"SELECT o.objectId,s.sourceId,s.flux-o.flux FROM Object o,Source s WHERE o.objectId=s.objectId\nSELECT o.objectId,s.sourceId,s.flux-o.flux FROM Object o,Source s WHERE o.objectId=s.objectId\n";

// Whether the command over a script has the status 0 and writes this.
fn is_joined<'t, R: Threads + Wait + Sync>(
    rt: &R,
    alloc: Global,
    workers: &'t str,
    script: &'t [u8],
    gate: &TestGate<'_>,
    want: &[u8],
) -> Result<bool, Fail> {
    let run = run_of(
        alloc,
        &["sources", "sky", "csv", "measured", "script", workers],
        &[
            ("sky", SKY),
            ("csv", CATALOGUE),
            ("measured", SOURCES),
            ("script", script),
        ],
        sink_of(alloc, 1000)?,
    )?;
    Ok(writes(rt, alloc, run, gate, want))
}

#[test]
fn two_work_on_chunks_of_sources_at_one_time(rt: HostRuntime) -> Result<(), Fail> {
    let gate = StepGate::new(2, 10000000);
    assert!(rt; is_joined(&rt, rt.alloc(), "2", ONCE, &TestGate::Step(&gate), ANSWER)?);
    assert_eq!(rt; (gate.met(), gate.given_up()), (true, false));
    Ok(())
}

#[test]
fn a_chunk_is_passed_once_for_both_queries(rt: HostRuntime) -> Result<(), Fail> {
    let mut gate = NoteGate::new();
    assert!(rt; is_joined(&rt, rt.alloc(), "0", TWICE, &TestGate::Note(&gate), ANSWERS)?);
    assert_eq!(rt; first_other(&mut gate, &[0, 4, 7]), None);
    Ok(())
}
