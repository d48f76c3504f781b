//! Columns of sources, by the columns of a pair whose second row is a source.
ghost use Rattle.std.specs.Prelude.{IfSome, false, true};
ghost use Rattle.source_filter.specs.Columns.{IsColumnOf};

use sql_bound::BoundCol;
use table_rules::limits::FIRST_COLUMNS;

/// A column of a source. An extra column is given by its number among these, from 0.
#[derive(Clone, Copy, Drop)]
pub(crate) enum SourceColumn {
    Id,
    Object,
    Further(usize),
}

/// Returns which column of a source the column of a pair is, if it is one. A source has `width` extra columns.
pub(crate) fn source_column(col: BoundCol, width: usize) -> Option<SourceColumn>
    ensures { IfSome result (λ found. IsColumnOf width found col) }
{
    if col.second {
        of_second(col.col, width)
    } else {
        of_first(col.col, width)
    }
}

/// Returns which column of a source the column of the second row is.
#[tactic(auto, using(crate::proofs::Reading::id_column))]
fn of_second(col: u32, width: usize) -> Option<SourceColumn>
    ensures { IfSome result (λ found. IsColumnOf width found
        (record { second = true; col = col })) }
{
    if col == 0 {
        Some(SourceColumn::Id)
    } else {
        further(col as usize, width)
    }
}

/// Returns which extra column of a source the column of the second row is.
#[tactic(auto, using(crate::proofs::Reading::further_column))]
fn further(col: usize, width: usize) -> Option<SourceColumn>
    ensures { IfSome result (λ found. IsColumnOf width found
        (record { second = true; col = col })) }
{
    if FIRST_COLUMNS <= col && col - FIRST_COLUMNS < width {
        Some(SourceColumn::Further(col - FIRST_COLUMNS))
    } else {
        None
    }
}

/// Returns which column of a source the column of the first row is: its id is the objectId of the source.
#[tactic(auto, using(crate::proofs::Reading::object_column))]
fn of_first(col: u32, width: usize) -> Option<SourceColumn>
    ensures { IfSome result (λ found. IsColumnOf width found
        (record { second = false; col = col })) }
{
    if col == 0 {
        Some(SourceColumn::Object)
    } else {
        None
    }
}
