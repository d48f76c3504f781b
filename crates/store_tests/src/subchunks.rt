//! The lists of subchunks of a small table, found by hand: no output of the program shows them.

use chunk_store::Store;
use sky_io::Memory;
use sky_plan::SkyPlan;
use sky_row::{Columns, Row, Rows, Schema};
use sky_vector::{Pos, length_ok};
use std::alloc::Global;
use std::test::Fail;
use std::thread::Threads;

/// Two stripes of four chunks, each with two columns and two rows, below and above the equator.
pub(crate) const SKY: &[u8] = b"overlap 5\nstripe -268435472 4 2 2\nstripe 0 4 2 2\n";

/// The ids and positions of the rows: the first is on the x axis, four are near it, and one is at the pole.
const ROWS: [(u32, i64, i64, i64); 6] = [
    (1, 268435456, 0, 0),
    (2, 268435456, 3, 0),
    (3, 268435456, 0, 4),
    (4, 268435456, -3, 0),
    (5, 268435456, 0, -1),
    (6, 0, 0, 268435456),
];

/// Subchunks by what is in them, each its chunk and number, with the numbers of its rows and of those of its overlap, all from 0.
const SUBCHUNKS: [(&str, (u32, u32), &[u32], &[u32]); 4] = [
    ("the first rows", (4, 0), &[0, 1, 2], &[3, 4]),
    ("the pole", (4, 2), &[5], &[]),
    ("the row beside the first in y", (7, 1), &[3], &[0, 1, 2, 4]),
    ("the row below the equator", (0, 2), &[4], &[0, 1, 2, 3]),
];

// Pushes a row after the others, if its position is admissible and there is room.
fn push(columns: &mut Columns, id: u32, x: i64, y: i64, z: i64) -> Result<(), Memory> {
    let Some(at) = Pos::new(x, y, z) else {
        return Ok(());
    };
    if columns.schema().width() == 4 && columns.len() < 10 && length_ok(&at) {
        columns.push(&Row::new(i64::from(id), at, &[]))?;
    }
    Ok(())
}

// Pushes all rows.
fn fill(columns: &mut Columns) -> Result<(), Memory> {
    for (id, x, y, z) in ROWS {
        push(columns, id, x, y, z)?;
    }
    Ok(())
}

// The plan of a short text, or none.
pub(crate) fn plan_of(alloc: Global, sky: &[u8]) -> Option<SkyPlan> {
    if sky.len() > 99 {
        return None;
    }
    SkyPlan::read(alloc, sky).ok()
}

// The store of the rows, built by three threads.
pub(crate) fn store_of<R: Threads + Sync>(
    rt: &R,
    alloc: Global,
    plan: SkyPlan,
) -> Result<Option<Store>, Fail> {
    let mut columns = Columns::new(alloc, Schema::new(alloc))?;
    fill(&mut columns)?;
    let Some(rows) = Rows::in_order(alloc, columns)? else {
        return Ok(None);
    };
    Ok(Some(Store::build(rt, alloc, 3, plan, rows)?))
}

// Whether these are the rows of a subchunk, and those of its overlap.
fn has(
    alloc: Global,
    store: &Store,
    place: (u32, u32),
    own: &[u32],
    beside: &[u32],
) -> Result<bool, Fail> {
    let (chunk, sub) = place;
    if chunk >= store.plan().chunks() || sub >= store.plan().subs(chunk) {
        return Ok(false);
    }
    let rows = store.sub(alloc, chunk, sub)?;
    let overlap = store.sub_overlap(alloc, chunk, sub)?;
    Ok(rows.as_slice() == own && overlap.as_slice() == beside)
}

// The first subchunk of the table whose rows the store does not have, or none.
fn wrong_one(alloc: Global, store: &Store) -> Result<Option<&'static str>, Fail> {
    for (name, place, own, beside) in SUBCHUNKS {
        if !has(alloc, store, place, own, beside)? {
            return Ok(Some(name));
        }
    }
    Ok(None)
}

// What is wrong of the store of the rows over the sky of a short text, or none.
fn fault_over<R: Threads + Sync>(
    rt: &R,
    alloc: Global,
    sky: &[u8],
) -> Result<Option<&'static str>, Fail> {
    let Some(plan) = plan_of(alloc, sky) else {
        return Ok(Some("no plan"));
    };
    let Some(store) = store_of(rt, alloc, plan)? else {
        return Ok(Some("no store"));
    };
    wrong_one(alloc, &store)
}

#[test]
fn a_subchunk_has_its_rows_and_those_near_it(rt: HostRuntime) -> Result<(), Fail> {
    let alloc = rt.alloc();
    assert_eq!(rt; fault_over(&rt, alloc, SKY)?, None);
    Ok(())
}
