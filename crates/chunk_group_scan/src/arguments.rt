//! The values of the expressions that a grouped query aggregates, a column at a time.

ghost use Rattle.std.specs.Prelude.{◌≡◌, ◌+◌, ◌++◌, ◌∷◌, [], ◌<◌, All, IfOk, IsTrue, OnOk, Some, false, length, map};
ghost use Rattle.std.specs.List.{list_all};
ghost use Rattle.sky_row.specs.Columns.{objects_at};
ghost use Rattle.value_rules.specs.Sound.{has_col, is_sound_expr};
ghost use Rattle.chunk_group_scan.specs.Grouped.{is_sound_total};
ghost use Rattle.chunk_group_scan.specs.States.{argument_of};
ghost use Rattle.chunk_filter.specs.Values.{values_on};
ghost use Rattle.table_rules.specs.declared.limits.TheConstants.{FIRST_COLUMNS};

use answer_rules::ChunkItem;
use chunk_filter::Scratch;
use column_block::Block;
use column_eval::{ValueList, listed_values, values};
use sky_io::Memory;
use sql_bound::BoundExpr;
use std::alloc::Global;

/// Returns for each of these aggregates the values of its expression on the selected rows. The values are `listed` if
/// they are read run by run. COUNT(*) has none. Allocates memory for a list of them. Allocates each vector that the
/// scratch does not have with enough room.
pub(crate) fn arguments<'a>(
    alloc: Global,
    block: &'a Block,
    items: &[ChunkItem],
    places: &'a [u32],
    listed: bool,
    scratch: &mut Scratch,
) -> Result<Vec<Option<ValueList<'a>>>, Memory>
    requires there { All (λ place. place < length block.now.objects) places.now }
    requires sound { IsTrue (list_all (is_sound_total (FIRST_COLUMNS + block.now.width))
        items.now) }
    ensures { IfOk result (λ arguments. arguments.items
        ≡ map (argument_of (objects_at block.now.objects places.now)) items.now) }
{
    let mut arguments = Vec::new(alloc);
    for item in items {
        push(
            &mut arguments,
            argument(block, item, places, listed, scratch)?,
        )?;
    }
    Ok(arguments)
}

/// Appends the values.
fn push<'a>(
    arguments: &mut Vec<Option<ValueList<'a>>>,
    argument: Option<ValueList<'a>>,
) -> Result<(), Memory>
    ensures { OnOk result (arguments.new.items ≡ arguments.old.items ++ argument.entry ∷ []) }
{
    Ok(arguments.push(argument)?)
}

/// Gives the values back to the scratch. Does not allocate.
pub(crate) fn give_back(arguments: Vec<Option<ValueList<'_>>>, scratch: &mut Scratch) {
    for argument in arguments {
        if let Some(found) = argument {
            found.give_back(&mut scratch.columns);
        }
    }
}

/// Returns the values of the aggregate's expression, if it has one.
fn argument<'a>(
    block: &'a Block,
    item: &ChunkItem,
    places: &'a [u32],
    listed: bool,
    scratch: &mut Scratch,
) -> Result<Option<ValueList<'a>>, Memory>
    requires there { All (λ place. place < length block.now.objects) places.now }
    requires sound { IsTrue (is_sound_total (FIRST_COLUMNS + block.now.width) item.now) }
    ensures { IfOk result (λ argument. argument
        ≡ argument_of (objects_at block.now.objects places.now) item.now) }
{
    match item {
        ChunkItem::Plain(_) => Ok(None),
        ChunkItem::Count => Ok(None),
        ChunkItem::CountOf(e) => of_expr(block, e, places, listed, scratch),
        ChunkItem::Sum(e) => of_expr(block, e, places, listed, scratch),
        ChunkItem::Min(e) => of_expr(block, e, places, listed, scratch),
        ChunkItem::Max(e) => of_expr(block, e, places, listed, scratch),
    }
}

/// Returns the values of an expression.
fn of_expr<'a>(
    block: &'a Block,
    e: &BoundExpr,
    places: &'a [u32],
    listed: bool,
    scratch: &mut Scratch,
) -> Result<Option<ValueList<'a>>, Memory>
    requires there { All (λ place. place < length block.now.objects) places.now }
    requires sound { IsTrue (is_sound_expr (has_col (FIRST_COLUMNS + block.now.width) false)
        e.now) }
    ensures { IfOk result (λ argument. argument
        ≡ Some (values_on e.now (objects_at block.now.objects places.now))) }
{
    let found = if listed {
        listed_values(block, e, places, &mut scratch.columns)
    } else {
        values(block, e, places, &mut scratch.columns)
    };
    Ok(Some(found?))
}
