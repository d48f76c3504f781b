//! What a chunk query computes of a pair of rows: the values of its items, and the pair's sort key.

ghost use Rattle.std.specs.Prelude.{◌≡◌, ◌+◌, ◌++◌, ◌∷◌, [], IsTrue, OnOk, length, map, true};
ghost use Rattle.std.specs.List.{list_all};
ghost use Rattle.value_rules.specs.Sound.{has_col};
ghost use Rattle.value_rules.specs.Values.{pair};
ghost use Rattle.answer_rules.specs.Pieces.{chunk_down, chunk_key, chunk_lines, chunk_value};
ghost use Rattle.answer_rules.specs.Rows.{out_row};
ghost use Rattle.partial_rows.specs.Multisets.{out_row as ranked};
ghost use Rattle.near_join.specs.Gains.{with_cells};
ghost use Rattle.near_join.specs.Sound.{IsSoundLine, is_sound_item, is_sound_key};
ghost use Rattle.table_rules.specs.declared.limits.TheConstants.{FIRST_COLUMNS};

use answer_rules::{ChunkItem, ChunkOrder, ChunkQuery};
use expr_eval::value;
use partial_merge::Rank;
use partial_rows::{rank_class, rank_value};
use sky_io::Memory;
use sky_row::Row;
use sky_vector::Num;

/// Returns the sort key of the pair in the chunk query. Does not allocate.
pub(crate) fn rank_of(query: &ChunkQuery, first: &Row, second: &Row) -> Rank
    requires wide { length second.now.further ≡ length first.now.further }
    requires sound { IsSoundLine (has_col (FIRST_COLUMNS + length first.now.further) true)
        query.now }
    ensures { ranked result []
        ≡ with_cells [] (out_row (chunk_lines query.now) (pair first.now second.now)) }
{
    let down = is_down(&query.order);
    let key = key(&query.order, first, second);
    Rank {
        class: rank_class(down, &key),
        value: rank_value(down, &key),
        first: first.id(),
        second: second.id(),
    }
}

/// Replaces the values in the list by those of the items; `None` is NULL. Allocates memory only if the list held fewer.
pub(crate) fn fill(
    values: &mut Vec<Option<Num>>,
    items: &[ChunkItem],
    first: &Row,
    second: &Row,
) -> Result<(), Memory>
    requires wide { length second.now.further ≡ length first.now.further }
    requires sound { IsTrue (list_all
        (is_sound_item (has_col (FIRST_COLUMNS + length first.now.further) true))
        items.now) }
    ensures { OnOk result (values.new.items
        ≡ map (chunk_value (pair first.now second.now)) items.now) }
{
    values.clear();
    for item in items {
        values.push(cell(item, first, second))?;
    }
    Ok(())
}

/// Returns the value of an item. An aggregate has none on a pair.
fn cell(item: &ChunkItem, first: &Row, second: &Row) -> Option<Num>
    requires wide { length second.now.further ≡ length first.now.further }
    requires sound { IsTrue (is_sound_item (has_col (FIRST_COLUMNS + length first.now.further) true)
        item.now) }
    ensures { result ≡ chunk_value (pair first.now second.now) item.now }
{
    match item {
        ChunkItem::Plain(e) => value(e, first, Some(second)),
        _ => None,
    }
}

/// Returns whether the order is descending.
fn is_down(order: &Option<ChunkOrder>) -> bool
    ensures { result ≡ chunk_down order.now }
{
    match order {
        None => false,
        Some(order) => order.down,
    }
}

/// Returns the value of the order key.
fn key(order: &Option<ChunkOrder>, first: &Row, second: &Row) -> Option<Num>
    requires wide { length second.now.further ≡ length first.now.further }
    requires sound { IsTrue (is_sound_key (has_col (FIRST_COLUMNS + length first.now.further) true)
        order.now) }
    ensures { result ≡ chunk_key order.now (pair first.now second.now) }
{
    match order {
        None => None,
        Some(order) => value(&order.key, first, Some(second)),
    }
}
