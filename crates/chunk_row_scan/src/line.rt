//! What a chunk query computes of a row: the values of its items, and its sort key.

ghost use Rattle.std.specs.Prelude.{◌≡◌, ◌+◌, ◌++◌, ◌∷◌, [], IsTrue, OnOk, length, map};
ghost use Rattle.std.specs.List.{list_all};
ghost use Rattle.sql_bound.specs.declared.query.Shape.TheVariants.{Rows};
ghost use Rattle.value_rules.specs.Values.{row};
ghost use Rattle.answer_rules.specs.Pieces.{chunk_down, chunk_value};
ghost use Rattle.answer_rules.specs.SoundChunks.{is_sound_part};
ghost use Rattle.chunk_row_scan.specs.Computed.{rank_by};
ghost use Rattle.table_rules.specs.declared.limits.TheConstants.{FIRST_COLUMNS};

use answer_rules::{ChunkItem, ChunkOrder};
use expr_eval::value;
use partial_merge::Rank;
use partial_rows::{rank_class, rank_value};
use sky_io::Memory;
use sky_row::Row;
use sky_vector::Num;

/// Returns the sort key of a row with this order key and this id. Does not allocate.
pub(crate) fn rank_of(down: bool, key: &Option<Num>, id: i64) -> Rank
    ensures { result ≡ rank_by down key.now id }
{
    Rank {
        class: rank_class(down, key),
        value: rank_value(down, key),
        first: id,
        second: 0,
    }
}

/// Replaces the values in the list by those of the items; `None` is NULL. Allocates memory only if the list held fewer.
pub(crate) fn fill(
    values: &mut Vec<Option<Num>>,
    items: &[ChunkItem],
    first: &Row,
) -> Result<(), Memory>
    requires sound { IsTrue
        (list_all (is_sound_part (FIRST_COLUMNS + length first.now.further) Rows) items.now) }
    ensures { OnOk result (values.new.items ≡ map (chunk_value (row first.now)) items.now) }
{
    values.clear();
    for item in items {
        push(values, cell(item, first))?;
    }
    Ok(())
}

/// Appends the value.
pub(crate) fn push(values: &mut Vec<Option<Num>>, value: Option<Num>) -> Result<(), Memory>
    ensures { OnOk result (values.new.items ≡ values.old.items ++ value ∷ []) }
{
    Ok(values.push(value)?)
}

/// Returns the value of an item. An aggregate has none on a row.
fn cell(item: &ChunkItem, first: &Row) -> Option<Num>
    requires sound { IsTrue
        (is_sound_part (FIRST_COLUMNS + length first.now.further) Rows item.now) }
    ensures { result ≡ chunk_value (row first.now) item.now }
{
    match item {
        ChunkItem::Plain(e) => value(e, first, None),
        _ => None,
    }
}

/// Returns whether the order is descending. Does not allocate.
pub(crate) fn is_down(order: &Option<ChunkOrder>) -> bool
    ensures { result ≡ chunk_down order.now }
{
    match order {
        None => false,
        Some(order) => order.down,
    }
}
