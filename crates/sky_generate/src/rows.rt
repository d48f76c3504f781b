//! The demo's catalogue for a count and a seed.

ghost use Rattle.std.specs.Prelude.{◌≡◌, ◌+◌, ◌<◌, ◌≤◌, [], ◌∷◌, ◌++◌, IfOk, OnOk, codes, true};
ghost use Rattle.std.specs.Thread.{IsSync};
ghost use Rattle.demo_rules.specs.DemoRows.{IsDemoCatalogue};
ghost use Rattle.demo_rules.specs.declared.limits.TheConstants.{MODULUS, SEED_MOST};
ghost use Rattle.sky_generate.specs.Places.{IsObjectBy};
ghost use Rattle.sky_generate.specs.SoFar.{IsDemoRange};
ghost use Rattle.table_rules.specs.Names.{can_follow, column_names};
ghost use Rattle.table_rules.specs.declared.limits.TheConstants.{ROWS_MOST};

use crate::draws::{Draws, draw_at};
use crate::place::place;
use demo_rules::limits::{DRAWS_EACH, FLUXES, KINDS};
use sky_io::Memory;
use sky_row::{Columns, Row, Rows, Schema};
use std::alloc::Global;
use std::thread::{Threads, join};

/// The objects that one thread makes, if there are no more: to start another costs more than it gains.
const SHORT: u32 = 1 << 12;

/// Creates the demo's catalogue with the given number of rows, at most 2^22, from this seed. Allocates memory for its
/// columns.
pub fn rows_of(alloc: Global, count: u32, seed: u32) -> Result<Rows, Memory>
    requires few { count ≤ ROWS_MOST }
    requires first { 1 ≤ seed }
    requires last { seed ≤ SEED_MOST }
    ensures { IfOk result (IsDemoCatalogue count seed) }
{
    let rows = range_of(alloc, 0, count, seed)?;
    Ok(Rows::ascending(rows))
}

/// Creates the demo's catalogue with the given number of rows, at most 2^22, from this seed, by the given number of
/// threads, this one among them. Allocates memory for its columns, and for those of the other threads' rows. A thread
/// that cannot be started costs time alone.
pub fn rows_by<R: Threads + Sync>(
    rt: &R,
    alloc: Global,
    threads: u32,
    count: u32,
    seed: u32,
) -> Result<Rows, Memory>
    requires few { count ≤ ROWS_MOST }
    requires first { 1 ≤ seed }
    requires last { seed ≤ SEED_MOST }
    ensures { IfOk result (IsDemoCatalogue count seed) }
{
    let rows = range_by(rt, alloc, threads, 0, count, seed)?;
    Ok(Rows::ascending(rows))
}

/// Returns about as many of the objects as `some` of the threads are of all threads.
fn share(count: u32, threads: u32, some: u32) -> u32
    requires { 0 < threads }
    ensures { result ≤ count }
{
    (count / threads).saturating_mul(some).min(count)
}

/// Creates `count` objects after the first `from`, by the given number of threads.
fn range_by<R: Threads + Sync>(
    rt: &R,
    alloc: Global,
    threads: u32,
    from: u32,
    count: u32,
    seed: u32,
) -> Result<Columns, Memory>
    requires few { from + count ≤ ROWS_MOST }
    requires first { 1 ≤ seed }
    requires last { seed ≤ SEED_MOST }
    ensures { IfOk result (IsDemoRange from count seed) }
{
    if threads < 2 || count < SHORT {
        return range_of(alloc, from, count, seed);
    }
    let some = threads / 2;
    let others = threads - some;
    let at = share(count, threads, some);
    let next = from + at;
    let more = count - at;
    let (first, second) = join(
        rt,
        || -> Result<Columns, Memory>
            requires { IsSync R.row × (from + at ≤ ROWS_MOST) × (1 ≤ seed) × (seed ≤ SEED_MOST) }
            ensures { IfOk result (IsDemoRange from at seed) }
        { range_by(rt, alloc, some, from, at, seed) },
        || -> Result<Columns, Memory>
            requires { IsSync R.row × (next + more ≤ ROWS_MOST) × (1 ≤ seed) × (seed ≤ SEED_MOST) }
            ensures { IfOk result (IsDemoRange next more seed) }
        { range_by(rt, alloc, others, next, more, seed) },
    );
    both_ranges(alloc, from, at, more, seed, first?, second?)
}

/// Returns the objects of two ranges, of which the first has `at` objects.
fn both_ranges(
    alloc: Global,
    from: u32,
    at: u32,
    more: u32,
    seed: u32,
    first: Columns,
    second: Columns,
) -> Result<Columns, Memory>
    requires few { from + at + more ≤ ROWS_MOST }
    requires first { IsDemoRange from at seed first }
    requires second { IsDemoRange (from + at) more seed second }
    ensures { IfOk result (IsDemoRange from (at + more) seed) }
{
    let rows = first.followed_by(alloc, &second)?;
    Ok(rows)
}

/// Creates `count` objects after the first `from`.
#[tactic(auto, using(crate::proofs::Growth::none_made, crate::proofs::Growth::before_is_below, crate::proofs::Growth::has_room, crate::proofs::Growth::is_wide))]
fn range_of(alloc: Global, from: u32, count: u32, seed: u32) -> Result<Columns, Memory>
    requires few { from + count ≤ ROWS_MOST }
    requires first { 1 ≤ seed }
    requires last { seed ≤ SEED_MOST }
    ensures { IfOk result (IsDemoRange from count seed) }
{
    let mut rows = empty(alloc)?;
    let mut before = draw_at(u64::from(seed), DRAWS_EACH * u64::from(from));
    for made in 0..count {
        let draws = Draws::after(before);
        rows.push(&object(from + made + 1, &draws))?;
        before = draws.kind;
    }
    Ok(rows)
}

/// Creates the catalogue without an object yet.
fn empty(alloc: Global) -> Result<Columns, Memory>
    ensures { IfOk result (λ rows. rows
        ≡ record { names = codes "flux" ∷ codes "kind" ∷ []; objects = [] }) }
{
    let schema = schema(alloc)?;
    Columns::new(alloc, schema)
}

/// Creates the object with this id and these draws.
fn object(id: u32, draws: &Draws) -> Row
    requires x { draws.now.lean_x < MODULUS }
    requires y { draws.now.lean_y < MODULUS }
    ensures { IsObjectBy id draws.now result }
{
    let at = place(draws.height, draws.lean_x, draws.lean_y);
    let flux = (draws.flux % FLUXES) as i64;
    let kind = (draws.kind % KINDS) as i64;
    Row::new(i64::from(id), at, &[Some(flux), Some(kind)])
}

/// Creates the extra columns: flux and kind.
fn schema(alloc: Global) -> Result<Schema, Memory>
    ensures { IfOk result (λ schema. schema ≡ codes "flux" ∷ codes "kind" ∷ []) }
{
    let mut schema = Schema::new(alloc);
    put_name(&mut schema, b"flux")?;
    put_name(&mut schema, b"kind")?;
    Ok(schema)
}

/// Appends an extra column.
fn put_name(schema: &mut Schema, name: &[u8]) -> Result<(), Memory>
    requires { can_follow (column_names schema.old) name.now ≡ true }
    ensures { OnOk result (schema.new ≡ schema.old ++ name.now ∷ []) }
{
    match schema.push(name) {
        Ok(()) => Ok(()),
        Err(_) => Err(Memory),
    }
}
