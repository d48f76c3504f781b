//! Which groups of a table of counts can be among the n groups with the most rows.
//!
//! The counts are counted by their size. From these numbers follows how many rows the last of the n groups has, and how
//! many groups with this number of rows are among the n. Whether n groups are before a cutoff is checked where it is used.

ghost use Rattle.std.specs.Prelude.{◌≡◌, ◌<◌};
ghost use Rattle.partial_groups.specs.Pruning.{group_count, count_before, counts_before, one_group};

/// The groups with more than `count` rows are before the cutoff, and of those with just as many the ones at positions
/// before `position`.
#[derive(Clone, Copy)]
pub(crate) struct Cutoff {
    pub(crate) count: u32,
    pub(crate) position: usize,
}

/// The number of sizes: each count below the last size has a size of its own.
const SIZES: usize = 1 << 12;

/// The last size, which all greater counts have too.
const LAST_SIZE: u32 = (1 << 12) - 1;

/// Returns the size of a count.
fn size(count: u32) -> usize
    ensures { result < SIZES }
{
    (count as usize).min(SIZES - 1)
}

/// Returns how many counts have each size.
fn sizes(counts: &[u32]) -> [u32; SIZES] {
    let mut sizes = [0u32; SIZES];
    for count in counts {
        let size = size(*count);
        sizes[size] = sizes[size].wrapping_add(1);
    }
    sizes
}

/// Returns the size of the last of the n greatest counts, and how many counts of this size are among them. Returns `None`
/// if fewer than n counts are above 0.
fn last_size(sizes: &[u32; SIZES], n: usize) -> Option<(u32, usize)> {
    let mut left = n;
    for below in 1..SIZES {
        let size = SIZES - below;
        let there = sizes[size] as usize;
        if there >= left {
            return Some((size as u32, left));
        }
        left -= there;
    }
    None
}

/// Returns the position after the first counts that are equal to `count`, the given number of them.
fn position_after(counts: &[u32], count: u32, ties: usize) -> usize {
    let mut left = ties;
    for i in 0..counts.len() {
        if counts[i] == count {
            if left <= 1 {
                return i + 1;
            }
            left -= 1;
        }
    }
    counts.len()
}

/// Returns the cutoff after the n groups with the most rows, if there are n groups. All counts of the last size are
/// before it if one of them is.
pub(crate) fn cutoff_for(counts: &[u32], n: usize) -> Option<Cutoff> {
    let sizes = sizes(counts);
    let (size, ties) = last_size(&sizes, n)?;
    if size == LAST_SIZE {
        return Some(Cutoff {
            count: LAST_SIZE - 1,
            position: 0,
        });
    }
    Some(Cutoff {
        count: size,
        position: position_after(counts, size, ties),
    })
}

/// Returns the count at position i, or 0 if its group is not before the cutoff.
pub(crate) fn count_before(cutoff: Cutoff, count: u32, i: usize) -> u32
    ensures { result ≡ count_before cutoff count i }
{
    if cutoff.count < count || (cutoff.count == count && i < cutoff.position) {
        count
    } else {
        0
    }
}

/// Returns 1 for a count that has a group, and 0 for the count 0.
fn one_if_there(count: u32) -> usize
    ensures { result ≡ one_group count }
{
    if count == 0 { 0 } else { 1 }
}

/// Returns the number of groups before the cutoff.
pub(crate) fn groups_before(cutoff: Cutoff, counts: &[u32]) -> usize
    ensures { result ≡ group_count (counts_before cutoff 0 counts.now) }
{
    let mut groups = 0usize;
    for i in 0..counts.len() {
        groups += one_if_there(count_before(cutoff, counts[i], i));
    }
    groups
}
