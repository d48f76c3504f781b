//! The truth values of a condition. Each function evaluates one level of the tree, a column at a time.
ghost use Rattle.std.specs.Prelude.{◌≡◌, ◌+◌, ◌<◌, false, IfOk, IsTrue, All, length, map};
ghost use Rattle.sky_row.specs.Columns.{objects_at};
ghost use Rattle.table_rules.specs.Objects.{IsRow};
ghost use Rattle.table_rules.specs.declared.limits.TheConstants.{FIRST_COLUMNS};
ghost use Rattle.value_rules.specs.Formulas.{formula_of, formula_of_all, formula_of_any, formula_of_pred};
ghost use Rattle.value_rules.specs.Sound.{has_col, is_sound_cond};
ghost use Rattle.value_rules.specs.Truth.{truth_of};
ghost use Rattle.value_rules.specs.Values.{row};
ghost use Rattle.column_vectors.specs.Flags.{AreFlags};
ghost use Rattle.column_eval.specs.Seen.{IsSoundTest};

use crate::area::area;
use crate::picked::Picked;
use crate::pred::{among, between, compare, is_null};
use column_block::Block;
use column_vectors::flags::{Flags, joined_by_and, joined_by_or, negated_if};
use column_vectors::{Scratch, TruthList};
use sky_io::Memory;
use sql_bound::{BoundAll, BoundAny, BoundCond, BoundPred};

/// Returns the truth values of the condition on the selected rows of the block. The selection vector counts from 0, and
/// its order is kept; `None` is unknown. Allocates memory for each node of the condition if the scratch has no free
/// vector.
pub fn truths(
    block: &Block,
    c: &BoundCond,
    picked: &[u32],
    scratch: &mut Scratch,
) -> Result<TruthList, Memory>
    requires there { All (λ place. place < length block.now.objects) picked.now }
    requires sound { IsTrue
        (is_sound_cond (has_col (FIRST_COLUMNS + block.now.width) false) c.now) }
    ensures { IfOk result (λ found. found
        ≡ map (λ o. truth_of c.now (row o)) (objects_at block.now.objects picked.now)) }
{
    let _ = block.len();
    let rows = Picked::new(block, picked);
    let flags = one(c, &rows, scratch)?;
    Ok(TruthList::of(flags))
}

// Returns the flags of a disjunction.
#[cycle(judge)]
fn any(a: &BoundAny, rows: &Picked<'_>, scratch: &mut Scratch) -> Result<Flags, Memory>
    requires rows { All IsRow rows.now.objects }
    requires sound { IsSoundTest rows.now (formula_of_any a.now) }
    ensures { IfOk result (AreFlags rows.now.objects (formula_of_any a.now)) }
{
    let mut found = all(&a.first, rows, scratch)?;
    let rest = a.rest.as_slice();
    for next in rest {
        let part = all(next, rows, scratch)?;
        found = joined_by_or(found, part, scratch);
    }
    Ok(found)
}

// Returns the flags of a conjunction.
#[cycle(judge)]
fn all(a: &BoundAll, rows: &Picked<'_>, scratch: &mut Scratch) -> Result<Flags, Memory>
    requires rows { All IsRow rows.now.objects }
    requires sound { IsSoundTest rows.now (formula_of_all a.now) }
    ensures { IfOk result (AreFlags rows.now.objects (formula_of_all a.now)) }
{
    let mut found = one(&a.first, rows, scratch)?;
    let rest = a.rest.as_slice();
    for next in rest {
        let part = one(next, rows, scratch)?;
        found = joined_by_and(found, part, scratch);
    }
    Ok(found)
}

// Returns the flags of a condition.
#[cycle(judge)]
fn one(c: &BoundCond, rows: &Picked<'_>, scratch: &mut Scratch) -> Result<Flags, Memory>
    requires rows { All IsRow rows.now.objects }
    requires sound { IsSoundTest rows.now (formula_of c.now) }
    ensures { IfOk result (AreFlags rows.now.objects (formula_of c.now)) }
{
    let found = test(&c.pred, rows, scratch)?;
    Ok(negated_if(c.not, found))
}

// Returns the flags of a test.
#[cycle(judge)]
fn test(pred: &BoundPred, rows: &Picked<'_>, scratch: &mut Scratch) -> Result<Flags, Memory>
    requires rows { All IsRow rows.now.objects }
    requires sound { IsSoundTest rows.now (formula_of_pred pred.now) }
    ensures { IfOk result (AreFlags rows.now.objects (formula_of_pred pred.now)) }
{
    match pred {
        BoundPred::Bracket(inner) => any(inner.get(), rows, scratch),
        BoundPred::Compare { left, op, right } => compare(left, *op, right, rows, scratch),
        BoundPred::Between {
            not,
            value,
            low,
            high,
        } => between(*not, value, low, high, rows, scratch),
        BoundPred::Among { not, value, list } => {
            among(*not, value, list.as_slice(), rows, scratch)
        },
        BoundPred::IsNull { not, value } => is_null(*not, value, rows, scratch),
        BoundPred::Area(test) => area(test, rows, scratch),
    }
}
