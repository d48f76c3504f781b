//! The table of pairs whose values are their own two ids: they are sorted, and the first of them are written.

ghost use Rattle.std.specs.Prelude.{◌≡◌, ◌++◌, map, IfOk, OnOk};
ghost use Rattle.std.specs.List.{flat_map};
ghost use Rattle.answer_rules.specs.Finish.{column_value, merged_rows};
ghost use Rattle.answer_rules.specs.Keeps.{AreApart};
ghost use Rattle.answer_rules.specs.Ranks.{row_order};
ghost use Rattle.partial_rows.specs.Pairs.{pair_row, pair_values, pairs_in};

use crate::id_pair::pair_cell;
use crate::id_pairs::{IdPairs, all_wide};
use crate::short_pair_table::sorted_short_pair_table;
use answer_rules::{MergeItem, MergePlan};
use answer_table::lists::cut;
use answer_table::values::{put, values_room};
use answer_table::{Table, TableValue};
use sky_io::Memory;
use std::alloc::Global;

/// Returns a merged item of a pair.
fn column(pair: &u128, item: &MergeItem) -> TableValue
    ensures { result ≡ column_value (pair_row pair.now).cells item.now }
{
    match item {
        MergeItem::Column(n) => TableValue::shown(pair_cell(*pair, *n)),
        _ => TableValue::shown(None),
    }
}

/// Appends the merged items of a pair.
fn put_pair(values: &mut Vec<TableValue>, pair: &u128, items: &[MergeItem]) -> Result<(), Memory>
    ensures { OnOk result (values.new.items ≡ values.old.items ++ pair_values items.now pair.now) }
{
    for item in items {
        put(values, column(pair, item))?;
    }
    Ok(())
}

/// Returns the values of the answer's rows.
fn pair_values(
    alloc: Global,
    pairs: &[u128],
    items: &[MergeItem],
) -> Result<Vec<TableValue>, Memory>
    ensures { IfOk result (λ values. values.items ≡ flat_map (pair_values items.now) pairs.now) }
{
    let mut values = values_room(alloc, pairs.len(), items.len())?;
    for pair in pairs {
        put_pair(&mut values, pair, items)?;
    }
    Ok(values)
}

/// Returns the table of these pairs. Allocates memory for it.
fn pair_table(alloc: Global, pairs: &[u128], items: &[MergeItem]) -> Result<Table, Memory>
    ensures { IfOk result (λ table. table ≡ map (λ r. map (column_value r.cells) items.now)
        (map pair_row pairs.now)) }
{
    let values = pair_values(alloc, pairs, items)?;
    Ok(Table::of(values, items.len(), pairs.len()))
}

/// Returns the table of wide pairs in any order. Allocates memory for the table, and before that for the sort, at most as
/// much as the pairs take.
fn sorted_wide_pair_table(
    alloc: Global,
    mut pairs: Vec<u128>,
    merge: &MergePlan,
) -> Result<Table, Memory>
    requires { AreApart row_order (map pair_row pairs.items) }
    ensures { IfOk result (λ table. table ≡ merged_rows merge.now (map pair_row pairs.items)) }
{
    pairs.sort()?;
    cut(&mut pairs, merge.limit);
    pair_table(alloc, pairs.as_slice(), merge.items.as_slice())
}

/// Returns the table of pairs in any order. Allocates memory for the table and, unless all pairs are short, for the short
/// ones as wide ones and for a sort.
pub(crate) fn sorted_pair_table(
    alloc: Global,
    pairs: IdPairs,
    merge: &MergePlan,
) -> Result<Table, Memory>
    requires { AreApart row_order (map pair_row (pairs_in pairs)) }
    ensures { IfOk result (λ table. table ≡ merged_rows merge.now (map pair_row (pairs_in pairs))) }
{
    if pairs.wide.is_empty() {
        sorted_short_pair_table(alloc, pairs.short, merge)
    } else {
        sorted_wide_pair_table(alloc, all_wide(pairs)?, merge)
    }
}
