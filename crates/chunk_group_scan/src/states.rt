//! The aggregate states of a group, computed from its rows, which are adjacent in the lists of values.

ghost use Rattle.std.specs.Prelude.{◌≡◌, ◌-◌, ◌++◌, ◌∷◌, [], ◌≤◌, All, List, OnOk, Some, length, map, slice_range};
ghost use Rattle.table_rules.specs.Objects.{Obj};
ghost use Rattle.table_rules.specs.declared.limits.TheConstants.{ROWS_MOST};
ghost use Rattle.value_rules.specs.Values.{row};
ghost use Rattle.answer_rules.specs.declared.way.Way.TheVariants.{Added, Greatest, Least};
ghost use Rattle.answer_rules.specs.Parts.{count_part, part_by, part_over};
ghost use Rattle.chunk_filter.specs.Values.{IsReady};
ghost use Rattle.chunk_group_scan.specs.States.{argument_of, numbers_between, state_of};

use answer_rules::{ChunkItem, Way};
use column_eval::ValueList;
use partial_merge::Tally;
use sky_io::Memory;

/// Replaces what the list holds by the aggregate states of these aggregates over the rows from index `from` to before
/// index `to`. For each aggregate, `arguments` has the values of its expression on all rows. Allocates memory only if
/// the list held fewer.
pub(crate) fn fill(
    states: &mut Vec<Tally>,
    items: &[ChunkItem],
    arguments: &[Option<ValueList<'_>>],
    from: usize,
    to: usize,
) -> Result<(), Memory>
    requires count { length arguments.now ≡ length items.now }
    requires order { from ≤ to }
    requires few { to ≤ ROWS_MOST }
    requires ready { All (IsReady to) arguments.now }
    ensures { OnOk result ((objects : List Obj) → to ≤ length objects
        → arguments.now ≡ map (argument_of objects) items.now → states.new.items
        ≡ map (part_over (map row (slice_range objects from to))) items.now) }
{
    states.clear();
    for i in 0..items.len() {
        push(states, state(&items[i], &arguments[i], from, to))?;
    }
    Ok(())
}

/// Appends the aggregate state.
fn push(states: &mut Vec<Tally>, state: Tally) -> Result<(), Memory>
    ensures { OnOk result (states.new.items ≡ states.old.items ++ state ∷ []) }
{
    Ok(states.push(state)?)
}

/// Returns the aggregate state of the rows from index `from` to before index `to`. NULL is not counted, and COUNT(*)
/// counts the rows.
fn state(item: &ChunkItem, argument: &Option<ValueList<'_>>, from: usize, to: usize) -> Tally
    requires order { from ≤ to }
    requires few { to ≤ ROWS_MOST }
    requires ready { IsReady to argument.now }
    ensures { result ≡ state_of item.now (to - from) (numbers_between argument.now from to) }
{
    match item {
        ChunkItem::Plain(_) => Tally::new(Way::Added, 0, None),
        ChunkItem::Count => Tally::new(Way::Added, (to - from) as u32, None),
        ChunkItem::CountOf(_) => counted(argument, from, to),
        ChunkItem::Sum(_) => summed(argument, from, to),
        ChunkItem::Min(_) => least(argument, from, to),
        ChunkItem::Max(_) => greatest(argument, from, to),
    }
}

/// Returns the count of the values.
fn counted(argument: &Option<ValueList<'_>>, from: usize, to: usize) -> Tally
    requires order { from ≤ to }
    requires few { to ≤ ROWS_MOST }
    requires ready { IsReady to argument.now }
    ensures { result ≡ count_part (length (numbers_between argument.now from to)) }
{
    match argument {
        None => Tally::new(Way::Added, 0, None),
        Some(found) => Tally::new(Way::Added, found.count(from, to), None),
    }
}

/// Returns the count of the values and their sum.
fn summed(argument: &Option<ValueList<'_>>, from: usize, to: usize) -> Tally
    requires order { from ≤ to }
    requires few { to ≤ ROWS_MOST }
    requires ready { IsReady to argument.now }
    ensures { result ≡ part_by Added (numbers_between argument.now from to) }
{
    match argument {
        None => Tally::new(Way::Added, 0, None),
        Some(found) => sum_of(found, from, to),
    }
}

/// Returns the aggregate state of the values from index `from` to before index `to`. If there are no values, there is
/// no sum.
fn sum_of(found: &ValueList<'_>, from: usize, to: usize) -> Tally
    requires order { from ≤ to }
    requires few { to ≤ ROWS_MOST }
    requires there { to ≤ length found.now }
    ensures { result ≡ part_by Added (numbers_between (Some found.now) from to) }
{
    let seen = found.count(from, to);
    if seen == 0 {
        Tally::new(Way::Added, 0, None)
    } else {
        Tally::new(Way::Added, seen, Some(found.sum(from, to)))
    }
}

/// Returns the count of the values and the least of them.
fn least(argument: &Option<ValueList<'_>>, from: usize, to: usize) -> Tally
    requires order { from ≤ to }
    requires few { to ≤ ROWS_MOST }
    requires ready { IsReady to argument.now }
    ensures { result ≡ part_by Least (numbers_between argument.now from to) }
{
    match argument {
        None => Tally::new(Way::Least, 0, None),
        Some(found) => Tally::new(Way::Least, found.count(from, to), found.least(from, to)),
    }
}

/// Returns the count of the values and the greatest of them.
fn greatest(argument: &Option<ValueList<'_>>, from: usize, to: usize) -> Tally
    requires order { from ≤ to }
    requires few { to ≤ ROWS_MOST }
    requires ready { IsReady to argument.now }
    ensures { result ≡ part_by Greatest (numbers_between argument.now from to) }
{
    match argument {
        None => Tally::new(Way::Greatest, 0, None),
        Some(found) => Tally::new(
            Way::Greatest,
            found.count(from, to),
            found.greatest(from, to),
        ),
    }
}
