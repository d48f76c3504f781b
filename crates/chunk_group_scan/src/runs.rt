//! Where runs begin among adjacent rows: at each row whose key differs from that of the row before.

ghost use Rattle.std.specs.Prelude.{◌≡◌, ◌+◌, ◌<◌, ◌≤◌, ℕ, All, IfOk, IsTrue, false, get_or, length, map, pos};
ghost use Rattle.std.specs.List.{list_all};
ghost use Rattle.sky_row.specs.Columns.{column_in, objects_at};
ghost use Rattle.value_rules.specs.Sound.{has_col};
ghost use Rattle.chunk_group_scan.specs.Runs.{AreStarts, IsMarked, IsMarkedBy};
ghost use Rattle.table_rules.specs.declared.limits.TheConstants.{FIRST_COLUMNS};

use chunk_filter::Scratch;
use column_block::Block;
use sky_io::Memory;
use sky_row::Column;
use sql_bound::BoundCol;

/// Returns a flag for each row, in a vector of the scratch. The flag is false only if the row's key is that of the row
/// before it.
pub(crate) fn starts(
    block: &Block,
    keys: &[BoundCol],
    places: &[u32],
    scratch: &mut Scratch,
) -> Result<Vec<bool>, Memory>
    requires there { All (λ place. place < length block.now.objects) places.now }
    requires sound { IsTrue (list_all (has_col (FIRST_COLUMNS + block.now.width) false) keys.now) }
    ensures len { IfOk result (λ starts. length starts.items ≡ length places.now) }
    ensures are { IfOk result (λ starts.
        AreStarts keys.now (objects_at block.now.objects places.now) starts.items) }
{
    let mut starts = scratch.flags.filled(false, places.len())?;
    mark_all(starts.as_mut_slice(), block, keys, places);
    Ok(starts)
}

/// Marks the rows whose key differs from that of the row before.
fn mark_all(starts: &mut [bool], block: &Block, keys: &[BoundCol], places: &[u32])
    requires len { length starts.old ≡ length places.now }
    requires there { All (λ place. place < length block.now.objects) places.now }
    requires sound { IsTrue (list_all (has_col (FIRST_COLUMNS + block.now.width) false) keys.now) }
    ensures len { length starts.new ≡ length starts.old }
    ensures are { AreStarts keys.now (objects_at block.now.objects places.now) starts.new }
{
    for key in keys {
        mark(starts, block, key.col, places);
    }
}

/// Marks the rows whose value in a column differs from that of the row before.
fn mark(starts: &mut [bool], block: &Block, col: u32, places: &[u32])
    requires len { length starts.old ≡ length places.now }
    requires there { All (λ place. place < length block.now.objects) places.now }
    requires col { col < FIRST_COLUMNS + block.now.width }
    ensures len { length starts.new ≡ length starts.old }
    ensures marked { IsMarked (column_in block.now.objects col) places.now starts.old starts.new }
{
    match col {
        0 => mark_wide(starts, block.ids(), places),
        1 => mark_narrow(starts, block.xs(), places),
        2 => mark_narrow(starts, block.ys(), places),
        3 => mark_narrow(starts, block.zs(), places),
        _ => mark_further(starts, block.further(col), places),
    }
}

/// Marks the rows at which the extra column changes: its numbers or its validity. NULL and 0 differ only in their
/// validity.
fn mark_further(starts: &mut [bool], column: &Column, places: &[u32])
    requires len { length starts.old ≡ length places.now }
    requires there { All (λ place. place < length column.now) places.now }
    ensures len { length starts.new ≡ length starts.old }
    ensures marked { IsMarked column.now places.now starts.old starts.new }
{
    mark_wide(starts, column.values(), places);
    if let Some(present) = column.present() {
        mark_presence(starts, present, places);
    }
}

/// Marks the rows at which the numbers change.
fn mark_wide(starts: &mut [bool], values: &[i64], places: &[u32])
    requires len { length starts.old ≡ length places.now }
    requires there { All (λ place. place < length values.now) places.now }
    ensures len { length starts.new ≡ length starts.old }
    ensures marked { IsMarkedBy (λ place. get_or values.now place (pos 0)) places.now starts.old
        starts.new }
{
    for j in 1..places.len() {
        starts[j] = starts[j] | (values[places[j] as usize] != values[places[j - 1] as usize]);
    }
}

/// Marks the rows at which the numbers of 32 bits change.
fn mark_narrow(starts: &mut [bool], values: &[i32], places: &[u32])
    requires len { length starts.old ≡ length places.now }
    requires there { All (λ place. place < length values.now) places.now }
    ensures len { length starts.new ≡ length starts.old }
    ensures marked { IsMarkedBy (λ place. get_or values.now place (pos 0)) places.now starts.old
        starts.new }
{
    for j in 1..places.len() {
        starts[j] = starts[j] | (values[places[j] as usize] != values[places[j - 1] as usize]);
    }
}

/// Marks the rows at which the flags change.
fn mark_presence(starts: &mut [bool], values: &[bool], places: &[u32])
    requires len { length starts.old ≡ length places.now }
    requires there { All (λ place. place < length values.now) places.now }
    ensures len { length starts.new ≡ length starts.old }
    ensures marked { IsMarkedBy (λ place. get_or values.now place false) places.now starts.old
        starts.new }
{
    for j in 1..places.len() {
        starts[j] = starts[j] | (values[places[j] as usize] != values[places[j - 1] as usize]);
    }
}

/// Returns the index after the last row of the run that begins at this index.
pub(crate) fn run_end(starts: &[bool], from: usize) -> usize
    requires { from < length starts.now }
    ensures more { from < result }
    ensures most { result ≤ length starts.now }
    ensures none { (j : ℕ) → from < j → j < result → get_or starts.now j false ≡ false }
{
    for j in from + 1..starts.len() {
        if starts[j] {
            return j;
        }
    }
    starts.len()
}
