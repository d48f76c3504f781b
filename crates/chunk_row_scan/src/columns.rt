//! What a chunk query computes of rows, a column at a time: the values that they are ordered by, and those of its items.

ghost use Rattle.std.specs.Prelude.{◌≡◌, ◌+◌, ◌++◌, ◌<◌, ◌≤◌, ◌∷◌, [], All, IfOk, IsTrue, None, OnOk, Some, false, get_or, length, map, nat_abs, pos};
ghost use Rattle.std.specs.List.{list_all};
ghost use Rattle.column_lists.specs.Columns.{cells_in};
ghost use Rattle.sky_row.specs.Columns.{objects_at};
ghost use Rattle.sql_bound.specs.declared.query.Shape.TheVariants.{Rows};
ghost use Rattle.value_rules.specs.Widths.{IsOfSize, most};
ghost use Rattle.answer_rules.specs.SoundChunks.{is_sound_chunk_order, is_sound_part};
ghost use Rattle.chunk_row_scan.specs.Computed.{AreReady, item_on, key_in, keys_on, rank_by};
ghost use Rattle.chunk_filter.specs.Values.{IsReady};
ghost use Rattle.table_rules.specs.declared.limits.TheConstants.{FIRST_COLUMNS};

use crate::line::{push, rank_of};
use answer_rules::{ChunkItem, ChunkOrder};
use chunk_filter::Scratch;
use column_block::Block;
use column_eval::{ValueList, values};
use partial_merge::Rank;
use sky_io::Memory;
use sky_vector::Num;
use std::alloc::Global;

/// Returns the order keys of the selected rows, if there is an order. Allocates each vector that the scratch does not
/// have with enough room.
pub(crate) fn keys<'a>(
    block: &'a Block,
    order: &Option<ChunkOrder>,
    places: &'a [u32],
    scratch: &mut Scratch,
) -> Result<Option<ValueList<'a>>, Memory>
    requires there { All (λ place. place < length block.now.objects) places.now }
    requires sound { IsTrue
        (is_sound_chunk_order (FIRST_COLUMNS + block.now.width) Rows order.now) }
    ensures { IfOk result (λ keys. keys
        ≡ keys_on (objects_at block.now.objects places.now) order.now) }
{
    match order {
        None => Ok(None),
        Some(order) => keys_by(block, order, places, scratch),
    }
}

/// Returns the values of an order's key on the selected rows.
fn keys_by<'a>(
    block: &'a Block,
    order: &ChunkOrder,
    places: &'a [u32],
    scratch: &mut Scratch,
) -> Result<Option<ValueList<'a>>, Memory>
    requires there { All (λ place. place < length block.now.objects) places.now }
    requires sound { IsTrue
        (is_sound_chunk_order (FIRST_COLUMNS + block.now.width) Rows (Some order.now)) }
    ensures { IfOk result (λ keys. keys
        ≡ keys_on (objects_at block.now.objects places.now) (Some order.now)) }
{
    Ok(Some(values(block, &order.key, places, &mut scratch.columns)?))
}

/// Returns the values of each of these items on the selected rows. Allocates memory for a list of them. Allocates each
/// vector that the scratch does not have with enough room.
pub(crate) fn columns<'a>(
    alloc: Global,
    block: &'a Block,
    items: &[ChunkItem],
    places: &'a [u32],
    scratch: &mut Scratch,
) -> Result<Vec<ValueList<'a>>, Memory>
    requires there { All (λ place. place < length block.now.objects) places.now }
    requires sound { IsTrue (list_all (is_sound_part (FIRST_COLUMNS + block.now.width) Rows)
        items.now) }
    ensures { IfOk result (λ columns. columns.items
        ≡ map (item_on (objects_at block.now.objects places.now)) items.now) }
{
    let mut columns = Vec::new(alloc);
    for item in items {
        put(&mut columns, column(block, item, places, scratch)?)?;
    }
    Ok(columns)
}

/// Appends the column.
fn put<'a>(columns: &mut Vec<ValueList<'a>>, column: ValueList<'a>) -> Result<(), Memory>
    ensures { OnOk result (columns.new.items ≡ columns.old.items ++ column.entry ∷ []) }
{
    Ok(columns.push(column)?)
}

/// Gives the values of the items back to the scratch. Does not allocate.
pub(crate) fn give_back(columns: Vec<ValueList<'_>>, scratch: &mut Scratch) {
    for column in columns {
        column.give_back(&mut scratch.columns);
    }
}

/// Gives the order keys back to the scratch. Does not allocate.
pub(crate) fn give_keys_back(keys: Option<ValueList<'_>>, scratch: &mut Scratch) {
    if let Some(keys) = keys {
        keys.give_back(&mut scratch.columns);
    }
}

/// Returns the values of an item, which is an expression of the row.
fn column<'a>(
    block: &'a Block,
    item: &ChunkItem,
    places: &'a [u32],
    scratch: &mut Scratch,
) -> Result<ValueList<'a>, Memory>
    requires there { All (λ place. place < length block.now.objects) places.now }
    requires sound { IsTrue (is_sound_part (FIRST_COLUMNS + block.now.width) Rows item.now) }
    ensures { IfOk result (λ column. column
        ≡ item_on (objects_at block.now.objects places.now) item.now) }
{
    match item {
        ChunkItem::Plain(e) => values(block, e, places, &mut scratch.columns),
        _ => unreachable!(),
    }
}

/// Returns the order key of the row at this index. Without an order all rows have the same one. Does not allocate.
pub(crate) fn key_at(keys: &Option<ValueList<'_>>, i: usize) -> Option<Num>
    requires { IsReady (i + 1) keys.now }
    ensures { result ≡ key_in keys.now i }
{
    match keys {
        None => None,
        Some(keys) => value_at(keys, i),
    }
}

/// Returns the sort key of the row at this index, whose number in the block is `place`. Does not allocate.
pub(crate) fn rank_at(
    down: bool,
    keys: &Option<ValueList<'_>>,
    ids: &[i64],
    place: u32,
    i: usize,
) -> Rank
    requires there { place < length ids.now }
    requires ready { IsReady (i + 1) keys.now }
    ensures { result ≡ rank_by down (key_in keys.now i) (get_or ids.now place (pos 0)) }
{
    rank_of(down, &key_at(keys, i), ids[place as usize])
}

/// Replaces the values in the list by those of the items on the row at this index. Allocates memory only if the list
/// held fewer.
pub(crate) fn fill_at(
    values: &mut Vec<Option<Num>>,
    columns: &[ValueList<'_>],
    i: usize,
) -> Result<(), Memory>
    requires ready { AreReady i columns.now }
    ensures { OnOk result (values.new.items ≡ cells_in columns.now i) }
{
    values.clear();
    for column in columns {
        push(values, value_at(column, i))?;
    }
    Ok(())
}

/// Returns the value of the row at this index.
fn value_at(column: &ValueList<'_>, i: usize) -> Option<Num>
    requires there { i < length column.now }
    requires sized { All (IsOfSize most) column.now }
    ensures { result ≡ get_or column.now i None }
{
    match column.get(i) {
        None => None,
        Some(n) => number(n),
    }
}

/// Returns a number as one that a query computes.
fn number(n: i128) -> Option<Num>
    requires { nat_abs n ≤ most }
    ensures { result ≡ Some n }
{
    Num::new(n)
}
