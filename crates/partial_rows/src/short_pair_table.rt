//! The table of short pairs: their packed keys are sorted, and the first of them are written.

ghost use Rattle.std.specs.Prelude.{◌≡◌, ◌++◌, map, IfOk, OnOk};
ghost use Rattle.std.specs.List.{flat_map};
ghost use Rattle.answer_rules.specs.Finish.{column_value, merged_rows};
ghost use Rattle.answer_rules.specs.Keeps.{AreApart};
ghost use Rattle.answer_rules.specs.Ranks.{row_order};
ghost use Rattle.partial_rows.specs.PackedKeys.{pair_in};
ghost use Rattle.partial_rows.specs.Pairs.{pair_row, pair_values, short_pair_values};

use crate::pair_key::short_cell;
use answer_rules::{MergeItem, MergePlan};
use answer_table::lists::cut;
use answer_table::values::{put, values_room};
use answer_table::{Table, TableValue};
use sky_io::Memory;
use std::alloc::Global;

/// Returns a merged item of a short pair.
fn column(key: u64, item: &MergeItem) -> TableValue
    ensures { result ≡ column_value (pair_row (pair_in key)).cells item.now }
{
    match item {
        MergeItem::Column(n) => TableValue::shown(short_cell(key, *n)),
        _ => TableValue::shown(None),
    }
}

/// Appends the merged items of a short pair.
fn put_pair(values: &mut Vec<TableValue>, key: u64, items: &[MergeItem]) -> Result<(), Memory>
    ensures { OnOk result (values.new.items
        ≡ values.old.items ++ pair_values items.now (pair_in key)) }
{
    for item in items {
        put(values, column(key, item))?;
    }
    Ok(())
}

/// Returns the values of the answer's rows.
fn short_pair_values(
    alloc: Global,
    keys: &[u64],
    items: &[MergeItem],
) -> Result<Vec<TableValue>, Memory>
    ensures { IfOk result (λ values.
        values.items ≡ flat_map (short_pair_values items.now) keys.now) }
{
    let mut values = values_room(alloc, keys.len(), items.len())?;
    for key in keys {
        put_pair(&mut values, *key, items)?;
    }
    Ok(values)
}

/// Returns the table of these short pairs. Allocates memory for it.
fn short_pair_table(alloc: Global, keys: &[u64], items: &[MergeItem]) -> Result<Table, Memory>
    ensures { IfOk result (λ table. table ≡ map (λ r. map (column_value r.cells) items.now)
        (map pair_row (map pair_in keys.now))) }
{
    let values = short_pair_values(alloc, keys, items)?;
    Ok(Table::of(values, items.len(), keys.len()))
}

/// Returns the table of short pairs in any order. Allocates memory for the table.
pub(crate) fn sorted_short_pair_table(
    alloc: Global,
    mut keys: Vec<u64>,
    merge: &MergePlan,
) -> Result<Table, Memory>
    requires { AreApart row_order (map pair_row (map pair_in keys.items)) }
    ensures { IfOk result (λ table.
        table ≡ merged_rows merge.now (map pair_row (map pair_in keys.items))) }
{
    keys.sort_unstable();
    cut(&mut keys, merge.limit);
    short_pair_table(alloc, keys.as_slice(), merge.items.as_slice())
}
