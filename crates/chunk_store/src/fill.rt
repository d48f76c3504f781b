//! Fills the lists of a store, in one traversal of the rows: each row's chunk is searched for once.
//!
//! Each thread fills lists of its own from a range of the rows. The lists of a later range are then appended to those
//! of the earlier one, chunk by chunk.

ghost use Rattle.std.specs.Prelude.{◌≡◌, ◌<◌, ◌≤◌, ◌+◌, ◌∷◌, [], IfOk, OnOk, length, replicate};
ghost use Rattle.std.specs.Thread.{IsSync};
ghost use Rattle.sky_vector.specs.Points.{IsAdmissible};
ghost use Rattle.sky_vector.specs.Pos.{point};
ghost use Rattle.sky_rules.specs.Limits.{IsSky};
ghost use Rattle.sky_rules.specs.Partition.{chunk_count, sub_count};
ghost use Rattle.overlap_tables.specs.Overlaps.{IsOwn, near_others};
ghost use Rattle.chunk_store.specs.Lists.{AreLists, AreRowLists, Pushed, overlap_test, own_test};

use crate::lists::Lists;
use overlap_tables::push_near_others;
use sky_io::Memory;
use sky_plan::SkyPlan;
use sky_row::Rows;
use sky_vector::Pos;
use std::alloc::Global;
use std::thread::{Threads, join};

/// Fewer rows are listed by one thread: starting another costs more than it gains.
const SHORT: u32 = 1 << 12;

/// Returns an empty list for each chunk.
fn empty_lists(alloc: Global, plan: &SkyPlan) -> Result<Lists, Memory>
    ensures ok { IfOk result (λ lists. lists ≡ replicate (chunk_count plan.now) []) }
    ensures limits { IsSky plan.now }
{
    Lists::empty(alloc, plan.chunks())
}

/// Returns an empty list for each subchunk of a chunk.
#[tactic(auto, using(crate::proofs::SubLists::few_subs))]
pub(crate) fn empty_parts(alloc: Global, plan: &SkyPlan, chunk: u32) -> Result<Lists, Memory>
    requires chunk { chunk < chunk_count plan.now }
    requires sky { IsSky plan.now }
    ensures { IfOk result (λ lists. lists ≡ replicate (sub_count plan.now chunk) []) }
{
    Lists::empty(alloc, plan.subs(chunk))
}

/// Appends the row number of a row at a position to the lists of the chunks that the position is near. Its own stripe
/// and chunk are given; `near` is room for the chunks' numbers.
fn push_near(
    plan: &SkyPlan,
    stripe: usize,
    own: u32,
    at: &Pos,
    place: u32,
    near: &mut Vec<u32>,
    lists: &mut Lists,
) -> Result<(), Memory>
    requires admissible { IsAdmissible (point at.now) }
    requires stripe { stripe < length plan.now.stripes }
    requires own { IsOwn plan.now own (point at.now) }
    requires all { length lists.old ≡ chunk_count plan.now }
    ensures { OnOk result (Pushed (near_others plan.now (point at.now)) place lists.old lists.new) }
{
    near.clear();
    push_near_others(plan, stripe, own, at, near)?;
    lists.push_all(near.as_slice(), place)
}

/// Returns, for each chunk, its rows and those in its full overlap, among `count` rows that begin with number `from`.
fn range_lists(
    alloc: Global,
    plan: &SkyPlan,
    rows: &Rows,
    from: u32,
    count: u32,
) -> Result<(Lists, Lists), Memory>
    requires { from + count ≤ length rows.now.objects }
    ensures { IfOk result (λ lists.
        AreRowLists plan.now rows.now.objects from count lists.0 lists.1) }
{
    let _all = rows.len();
    let mut own = empty_lists(alloc, plan)?;
    let mut overlap = empty_lists(alloc, plan)?;
    let mut near = Vec::new(alloc);
    for k in 0..count {
        let place = from + k;
        let at = rows.position(place);
        let stripe = plan.stripe_of(&at);
        let chunk = plan.chunk_in(stripe, &at);
        own.push(chunk, place)?;
        push_near(plan, stripe, chunk, &at, place, &mut near, &mut overlap)?;
    }
    Ok((own, overlap))
}

/// Returns the number of rows for `some` of the threads, about `some / threads` of all rows.
fn share(count: u32, threads: u32, some: u32) -> u32
    requires { 0 < threads }
    ensures { result ≤ count }
{
    (count / threads).saturating_mul(some).min(count)
}

/// Returns the lists of a range of rows, given those of its two parts, of which the first has `at` rows.
fn both_lists(
    plan: &SkyPlan,
    rows: &Rows,
    from: u32,
    at: u32,
    more: u32,
    first: (Lists, Lists),
    second: (Lists, Lists),
) -> Result<(Lists, Lists), Memory>
    requires first { AreRowLists plan.now rows.now.objects from at first.0 first.1 }
    requires second { AreRowLists plan.now rows.now.objects (from + at) more second.0 second.1 }
    ensures { IfOk result (λ lists.
        AreRowLists plan.now rows.now.objects from (at + more) lists.0 lists.1) }
{
    let (mut own, mut overlap) = first;
    let (own_more, overlap_more) = second;
    own.append(&own_more)?;
    overlap.append(&overlap_more)?;
    Ok((own, overlap))
}

/// Returns the lists of a range of rows, made by the given number of threads. A thread that cannot be started costs
/// only time.
fn lists_by<R: Threads + Sync>(
    rt: &R,
    alloc: Global,
    threads: u32,
    plan: &SkyPlan,
    rows: &Rows,
    from: u32,
    count: u32,
) -> Result<(Lists, Lists), Memory>
    requires { from + count ≤ length rows.now.objects }
    ensures { IfOk result (λ lists.
        AreRowLists plan.now rows.now.objects from count lists.0 lists.1) }
{
    if threads < 2 || count < SHORT {
        return range_lists(alloc, plan, rows, from, count);
    }
    let _all = rows.len();
    let low = threads / 2;
    let high = threads - low;
    let at = share(count, threads, low);
    let next = from + at;
    let more = count - at;
    let (first, second) = join(
        rt,
        || -> Result<(Lists, Lists), Memory>
            requires { IsSync R.row × (from + at ≤ length rows.now.objects) }
            ensures { IfOk result (λ lists.
                AreRowLists plan.entry.now rows.entry.now.objects from at lists.0 lists.1) }
        { lists_by(rt, alloc, low, plan, rows, from, at) },
        || -> Result<(Lists, Lists), Memory>
            requires { IsSync R.row × (next + more ≤ length rows.now.objects) }
            ensures { IfOk result (λ lists.
                AreRowLists plan.entry.now rows.entry.now.objects next more lists.0 lists.1) }
        { lists_by(rt, alloc, high, plan, rows, next, more) },
    );
    both_lists(plan, rows, from, at, more, first?, second?)
}

/// Returns, for each chunk, the row numbers of its rows, and those of the rows in its full overlap. They are found by
/// the given number of threads.
pub(crate) fn row_lists<R: Threads + Sync>(
    rt: &R,
    alloc: Global,
    threads: u32,
    plan: &SkyPlan,
    rows: &Rows,
) -> Result<(Lists, Lists), Memory>
    ensures limits { IsSky plan.now }
    ensures own { IfOk result (λ lists. AreLists (own_test plan.now) (chunk_count plan.now)
        rows.now.objects (length rows.now.objects) lists.0) }
    ensures overlap { IfOk result (λ lists. AreLists (overlap_test plan.now) (chunk_count plan.now)
        rows.now.objects (length rows.now.objects) lists.1) }
{
    let _chunks = plan.chunks();
    lists_by(rt, alloc, threads, plan, rows, 0, rows.len())
}
