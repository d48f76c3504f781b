//! What a child query computes of a pair of rows: the values of its items, and the pair's sort key.

ghost use Rattle.std.specs.Prelude.{◌≡◌, ◌+◌, [], IsTrue, OnOk, length, map, slice_get, true};
ghost use Rattle.std.specs.List.{list_all};
ghost use Rattle.std.specs.Option.{option_and_then};
ghost use Rattle.value_rules.specs.Sound.{has_col};
ghost use Rattle.value_rules.specs.Values.{cell_of, pair};
ghost use Rattle.answer_rules.specs.Rows.{bound_lines, goes_down, item_value, key_value, order_value, out_row};
ghost use Rattle.partial_rows.specs.Multisets.{out_row as ranked};
ghost use Rattle.child_scan.specs.SoundPairs.{IsSoundPair, is_pair_key, is_pair_item, is_pair_order};
ghost use Rattle.child_scan.specs.Lines.{with_cells};
ghost use Rattle.table_rules.specs.declared.limits.TheConstants.{FIRST_COLUMNS};

use expr_eval::value;
use partial_rows::{Rank, rank_class, rank_value};
use sky_io::Memory;
use sky_row::Row;
use sky_vector::Num;
use sql_bound::{Bound, BoundCol, BoundItem, BoundKey, BoundOrder};

/// Returns the sort key of the pair in the query. Does not allocate.
pub(crate) fn rank_of(query: &Bound, first: &Row, second: &Row) -> Rank
    requires wide { length second.now.further ≡ length first.now.further }
    requires sound { IsSoundPair (has_col (FIRST_COLUMNS + length first.now.further) true)
        query.now }
    ensures { ranked result []
        ≡ with_cells [] (out_row (bound_lines query.now) (pair first.now second.now)) }
{
    let down = is_down(&query.order);
    let key = key(query, first, second);
    Rank {
        class: rank_class(down, &key),
        value: rank_value(down, &key),
        first: first.id(),
        second: second.id(),
    }
}

/// Replaces the values in the list by those of the items; `None` is NULL. Allocates memory only if the list held fewer.
pub(crate) fn fill(
    values: &mut Vec<Option<Num>>,
    items: &[BoundItem],
    first: &Row,
    second: &Row,
) -> Result<(), Memory>
    requires wide { length second.now.further ≡ length first.now.further }
    requires sound { IsTrue (list_all
        (is_pair_item (has_col (FIRST_COLUMNS + length first.now.further) true))
        items.now) }
    ensures { OnOk result (values.new.items
        ≡ map (item_value (pair first.now second.now)) items.now) }
{
    values.clear();
    for item in items {
        values.push(cell(item, first, second))?;
    }
    Ok(())
}

/// Returns the value of an item. An aggregate has none on a pair.
fn cell(item: &BoundItem, first: &Row, second: &Row) -> Option<Num>
    requires wide { length second.now.further ≡ length first.now.further }
    requires sound { IsTrue (is_pair_item (has_col (FIRST_COLUMNS + length first.now.further) true)
        item.now) }
    ensures { result ≡ item_value (pair first.now second.now) item.now }
{
    match item {
        BoundItem::Plain(e) => value(e, first, Some(second)),
        _ => None,
    }
}

/// Returns whether the order is descending.
fn is_down(order: &Option<BoundOrder>) -> bool
    ensures { result ≡ goes_down order.now }
{
    match order {
        None => false,
        Some(order) => order.down,
    }
}

/// Returns the value of the order key.
fn key(query: &Bound, first: &Row, second: &Row) -> Option<Num>
    requires wide { length second.now.further ≡ length first.now.further }
    requires sound { IsSoundPair (has_col (FIRST_COLUMNS + length first.now.further) true)
        query.now }
    ensures { result ≡ order_value query.now query.now.order (pair first.now second.now) }
{
    match &query.order {
        None => None,
        Some(order) => key_of(query, order.key, first, second),
    }
}

/// Returns the value of a key: that of the item at an index, or of a column.
fn key_of(query: &Bound, key: BoundKey, first: &Row, second: &Row) -> Option<Num>
    requires wide { length second.now.further ≡ length first.now.further }
    requires sound { IsSoundPair (has_col (FIRST_COLUMNS + length first.now.further) true)
        query.now }
    requires there { IsTrue (is_pair_key (has_col (FIRST_COLUMNS + length first.now.further) true)
        key) }
    ensures { result ≡ key_value query.now (pair first.now second.now) key }
{
    match key {
        BoundKey::Item(place) => item_at(query.items.as_slice(), place, first, second),
        BoundKey::Column(col) => column(col, first, second),
    }
}

/// Returns the value of the item at an index. If there is none, it is NULL.
fn item_at(items: &[BoundItem], place: usize, first: &Row, second: &Row) -> Option<Num>
    requires wide { length second.now.further ≡ length first.now.further }
    requires sound { IsTrue (list_all
        (is_pair_item (has_col (FIRST_COLUMNS + length first.now.further) true))
        items.now) }
    ensures { result ≡ option_and_then (item_value (pair first.now second.now))
        (slice_get items.now place) }
{
    match items.get(place) {
        None => None,
        Some(item) => cell(item, first, second),
    }
}

/// Returns the value in a column of either row.
fn column(col: BoundCol, first: &Row, second: &Row) -> Option<Num>
    requires wide { length second.now.further ≡ length first.now.further }
    requires there { IsTrue (has_col (FIRST_COLUMNS + length first.now.further) true col) }
    ensures { result ≡ cell_of (pair first.now second.now) col }
{
    let row = if col.second { second } else { first };
    Num::new(i128::from(row.value(col.col)?))
}
