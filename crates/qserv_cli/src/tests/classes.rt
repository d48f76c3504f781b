//! The command `classes`: threads meet, queries share a chunk's scan, and short queries are scanned before long ones.
use crate::tests::gates::TestGate;
use crate::tests::runs::is_written;
use crate::tests::{count_by, first_other, meet_by};
use sky_io::NoteGate;
use std::alloc::Global;
use std::process::Abort;
use std::sync::Wait;
use std::test::Fail;
use std::thread::Threads;

/// 18 chunks, of which the first lies below all rows.
const SKY: &[u8] =
    b"overlap 0\nstripe -268435472 1 1 1\nstripe 0 1 1 1\nstripe 64 1 1 1\nstripe 128 1 1 1\nstripe 192 1 1 1\nstripe 256 1 1 1\nstripe 320 1 1 1\nstripe 384 1 1 1\nstripe 448 1 1 1\nstripe 512 1 1 1\nstripe 576 1 1 1\nstripe 640 1 1 1\nstripe 704 1 1 1\nstripe 768 1 1 1\nstripe 832 1 1 1\nstripe 896 1 1 1\nstripe 960 1 1 1\nstripe 1024 1 1 1\n";

/// A row in each of 17 chunks.
const CATALOGUE: &[u8] =
    b"objectId,x,y,z\n1,268435456,0,0\n2,268435456,0,64\n3,268435456,0,128\n4,268435456,0,192\n5,268435456,0,256\n6,268435456,0,320\n7,268435456,0,384\n8,268435456,0,448\n9,268435456,0,512\n10,268435456,0,576\n11,268435456,0,640\n12,268435456,0,704\n13,268435456,0,768\n14,268435456,0,832\n15,268435456,0,896\n16,268435456,0,960\n17,268435456,0,1024\n";

/// A query of 17 chunks, which is long, and one of a single chunk.
const SCRIPT: &[u8] =
    b"SELECT COUNT(*) FROM Object\nSELECT COUNT(*) FROM Object WHERE objectId = 3\n";

const ANSWERS: &[u8] =
    b"query 1\nCOUNT(*)\n17\n1 rows, 17 chunks\nquery 2\nCOUNT(*)\n1\n1 rows, 1 chunks\n";

// Runs the script by a command, with no workers. The passes are those of the chunks, in this order.
fn pass_by<R: Abort + Threads + Wait + Sync>(
    rt: &R,
    alloc: Global,
    command: &str,
    chunks: &[u32],
) -> Result<(), Fail> {
    let mut gate = NoteGate::new();
    let texts = (SKY, CATALOGUE, SCRIPT);
    let note = TestGate::Note(&gate);
    assert!(rt; is_written(rt, alloc, (command, "0"), texts, &note, ANSWERS)?);
    assert_eq!(rt; first_other(&mut gate, chunks), None);
    Ok(())
}

#[test]
fn a_short_query_is_scanned_before_a_long_one(rt: HostRuntime) -> Result<(), Fail> {
    let chunks = [3, 1, 2, 3, 4, 5, 6, 7, 8, 9, 10, 11, 12, 13, 14, 15, 16, 17];
    pass_by(&rt, rt.alloc(), "classes", chunks.as_slice())
}

#[test]
fn on_one_board_a_short_query_shares_a_long_ones_scan(rt: HostRuntime) -> Result<(), Fail> {
    let chunks = [1, 2, 3, 4, 5, 6, 7, 8, 9, 10, 11, 12, 13, 14, 15, 16, 17];
    pass_by(&rt, rt.alloc(), "query", chunks.as_slice())
}

#[test]
fn two_work_on_chunks_at_one_time_by_classes(rt: HostRuntime) -> Result<(), Fail> {
    meet_by(&rt, rt.alloc(), "classes")
}

#[test]
fn a_chunk_is_passed_once_for_all_short_queries_that_run(rt: HostRuntime) -> Result<(), Fail> {
    count_by(&rt, rt.alloc(), "classes")
}
