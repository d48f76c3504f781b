//! What a subchunk selects of the sweep window of its chunk: its rows and those of its overlap.

ghost use Rattle.std.specs.Prelude.{◌≡◌, ◌-◌, ◌<◌, ◌≤◌, ◌^◌, ◌+ℤ◌, ◌-ℤ◌, IfOk, filter, length, pos, slice_range, take};
ghost use Rattle.std.specs.List.{range_with_len};
ghost use Rattle.sky_rules.specs.Bounds.{near_sides, sub_bounds_of};
ghost use Rattle.sky_rules.specs.Limits.{IsSky};
ghost use Rattle.sky_rules.specs.Partition.{chunk_count, sub_count};
ghost use Rattle.sky_rules.specs.declared.limits.TheConstants.{OVERLAP_MOST};
ghost use Rattle.sky_plan.specs.Regions.{bounds_shown, sides_shown};
ghost use Rattle.near_join.specs.Strips.{IsChunkStrip, IsListed, IsSubStrip, IsWhole, is_near_row, row_in};
ghost use Rattle.near_join.specs.Windows.{Ascend, IsBetween};

use crate::heights::between_narrow;
use crate::sides::is_near;
use crate::strip::Strip;
use chunk_store::Store;
use sky_io::Memory;
use sky_plan::Region;
use sky_row::Rows;
use sky_vector::Dir;
use std::alloc::Global;

/// Returns a subchunk's rows and those of its overlap, in ascending order of height, from the sweep window of its
/// chunk. Allocates memory for them.
pub(crate) fn sub_strip(
    alloc: Global,
    store: &Store,
    chunk: u32,
    sub: u32,
    region: &Region,
    strip: &Strip,
) -> Result<Strip, Memory>
    requires chunk { chunk < chunk_count store.now.plan }
    requires sub { sub < sub_count store.now.plan chunk }
    requires sky { IsSky store.now.plan }
    requires region { bounds_shown region.now ≡ sub_bounds_of store.now.plan chunk sub }
    requires strip { IsChunkStrip store.now.plan store.now.rows.objects chunk strip.now }
    requires whole { IsWhole strip.now }
    ensures { IfOk result (λ near.
        IsSubStrip store.now.plan store.now.rows.objects chunk sub near) }
{
    let rows = store.rows();
    let _ = rows.len();
    let radius = store.plan().radius_of(chunk);
    let (from, to) = near_heights(strip.zs(), region, radius);
    near_ones(alloc, rows, strip, from, to, region, radius)
}

/// Returns the range of positions of the heights that are no farther than the radius from those of the region.
fn near_heights(zs: &[i32], region: &Region, radius: u32) -> (usize, usize)
    requires ascend { Ascend zs.now }
    requires radius { radius ≤ OVERLAP_MOST }
    ensures { IsBetween zs.now (region.now.z_low -ℤ pos radius) (region.now.z_high +ℤ pos radius)
        result.0 result.1 }
{
    let radius = i64::from(radius);
    between_narrow(zs, region.z_low - radius, region.z_high + radius)
}

/// Returns the rows near the region, in the same order, among those from one position to before another. These
/// positions are those of all rows that are near the heights of the region.
fn near_ones(
    alloc: Global,
    rows: &Rows,
    strip: &Strip,
    from: usize,
    to: usize,
    region: &Region,
    radius: u32,
) -> Result<Strip, Memory>
    requires listed { IsListed rows.now.objects strip.now }
    requires whole { IsWhole strip.now }
    requires few { length strip.now.places < 2 ^ 32 }
    requires heights { IsBetween strip.now.zs (region.now.z_low -ℤ pos radius)
        (region.now.z_high +ℤ pos radius) from to }
    requires radius { radius ≤ OVERLAP_MOST }
    ensures places { IfOk result (λ near. near.places
        ≡ filter (is_near_row rows.now.objects radius (bounds_shown region.now))
        (slice_range strip.now.places from to)) }
    ensures listed { IfOk result (λ near. IsListed rows.now.objects near) }
{
    let numbers = near_numbers(alloc, strip, from, to, region.sides, radius)?;
    strip.taken(alloc, numbers.as_slice())
}

/// Returns the positions, from one to before another, of the rows that are near these sides. Allocates 4 bytes for each
/// position of this range.
fn near_numbers(
    alloc: Global,
    strip: &Strip,
    from: usize,
    to: usize,
    sides: Option<(Dir, Dir)>,
    radius: u32,
) -> Result<Vec<u32>, Memory>
    requires whole { IsWhole strip.now }
    requires few { length strip.now.places < 2 ^ 32 }
    requires order { from ≤ to }
    requires there { to ≤ length strip.now.places }
    requires radius { radius ≤ OVERLAP_MOST }
    ensures { IfOk result (λ numbers. numbers.items
        ≡ filter (λ k. near_sides radius (sides_shown sides) (row_in strip.now k))
        (range_with_len from (to - from))) }
{
    let mut numbers = Vec::from_elem(alloc, 0, to - from)?;
    let count = put_near(strip, from, to, sides, radius, numbers.as_mut_slice());
    numbers.truncate(count);
    Ok(numbers)
}

/// Writes the positions, from one to before another, of the rows that are near these sides to the beginning of a list.
/// Returns how many there are. Each position is written, and is overwritten by the next one if its row is not near, so
/// that there is no branch.
fn put_near(
    strip: &Strip,
    from: usize,
    to: usize,
    sides: Option<(Dir, Dir)>,
    radius: u32,
    numbers: &mut [u32],
) -> usize
    requires whole { IsWhole strip.now }
    requires few { length strip.now.places < 2 ^ 32 }
    requires order { from ≤ to }
    requires there { to ≤ length strip.now.places }
    requires radius { radius ≤ OVERLAP_MOST }
    requires room { length numbers.old ≡ to - from }
    ensures value { take result numbers.new
        ≡ filter (λ k. near_sides radius (sides_shown sides) (row_in strip.now k))
        (range_with_len from (to - from)) }
    ensures len { length numbers.new ≡ length numbers.old }
{
    let mut count = 0usize;
    for i in from..to {
        numbers[count] = i as u32;
        count += usize::from(is_near(sides, radius, &strip.at(i)));
    }
    count
}
