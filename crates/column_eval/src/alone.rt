//! Expressions that are a single column, and the numbers of such a column if none is NULL.
ghost use Rattle.std.specs.Prelude.{◌≡◌, ◌≢◌, ◌+◌, ◌≤◌, ℕ, All, IfNone, IfSome, IsTrue, Some, false, map, nat_abs};
ghost use Rattle.sql_bound.specs.Trees.{just};
ghost use Rattle.sql_bound.specs.declared.expr.BoundAtom.TheVariants.{Col};
ghost use Rattle.table_rules.specs.declared.limits.TheConstants.{FIRST_COLUMNS, FURTHER_MOST};
ghost use Rattle.value_rules.specs.Sound.{has_col, is_sound_expr};
ghost use Rattle.value_rules.specs.Terms.{Column, term_of};
ghost use Rattle.value_rules.specs.Values.{row, value_of};
ghost use Rattle.column_vectors.specs.PickedColumns.{first_col};

use column_block::Block;
use column_vectors::leaf::numbers_if_whole;
use sql_bound::{BoundAtom, BoundCol, BoundExpr};
use table_rules::limits::FIRST_COLUMNS;

/// Returns the number of the column of the first row, if the expression is one. `None` only if it is not written as a
/// single column. Does not allocate.
pub fn column_of(e: &BoundExpr) -> Option<u32>
    ensures some { IfSome result (λ col. term_of e.now ≡ Column (first_col col)) }
    ensures none { IfNone result ((col : ℕ) → e.now ≢ just (Col (first_col col))) }
{
    let factor = &e.first.first;
    if e.rest.len() > 0 || e.first.rest.len() > 0 || factor.minus {
        return None;
    }
    match &factor.atom {
        BoundAtom::Col(col) => first_column(col),
        _ => None,
    }
}

/// Returns the number of a column of the first row.
fn first_column(col: &BoundCol) -> Option<u32>
    ensures some { IfSome result (λ found. first_col found ≡ col.now) }
    ensures none { IfNone result ((found : ℕ) → first_col found ≢ col.now) }
{
    if col.second { None } else { Some(col.col) }
}

/// Returns the numbers of the extra column, if the expression is one and none of its values is NULL.
pub(crate) fn whole_column<'a>(block: &'a Block, e: &BoundExpr) -> Option<&'a [i64]>
    requires sound { IsTrue
        (is_sound_expr (has_col (FIRST_COLUMNS + block.now.width) false) e.now) }
    ensures all { IfSome result (λ values. map Some values.now
        ≡ map (λ o. value_of e.now (row o)) block.now.objects) }
    ensures fits { IfSome result (λ values. All (λ z. nat_abs z ≤ FURTHER_MOST) values.now) }
{
    // the contract of `len` says what holds of each row
    let _ = block.len();
    let col = column_of(e)?;
    if (col as usize) < FIRST_COLUMNS {
        return None;
    }
    numbers_if_whole(block.further(col))
}
