//! The column vector of an expression. Each function computes one level of the tree, a column at a time.
ghost use Rattle.std.specs.Prelude.{◌≡◌, ◌+◌, ◌*◌, ◌<◌, ◌*ℤ◌, false, IfOk, IsTrue, All, length, map};
ghost use Rattle.sky_row.specs.Columns.{objects_at};
ghost use Rattle.table_rules.specs.Objects.{IsRow};
ghost use Rattle.table_rules.specs.declared.limits.TheConstants.{FIRST_COLUMNS};
ghost use Rattle.value_rules.specs.Sound.{has_col, is_sound_expr};
ghost use Rattle.value_rules.specs.Terms.{Column, Number, term_of, term_of_atom, term_of_factor, term_of_prod};
ghost use Rattle.value_rules.specs.Values.{row, value_of};
ghost use Rattle.column_vectors.specs.Lanes.{AreLanesJoined, CanJoin, IsLane, IsSigned, IsSmall, numbers_of, with_sign};
ghost use Rattle.column_eval.specs.Seen.{IsSoundFor};

use crate::alone::whole_column;
use crate::picked::Picked;
use column_block::Block;
use column_vectors::join::{Less, Plus, Times};
use column_vectors::lane::{Lane, lanes_joined};
use column_vectors::leaf::literal;
use column_vectors::picked_column::PickedColumn;
use column_vectors::{Scratch, ValueList};
use sky_io::Memory;
use sql_bound::{BoundAtom, BoundCol, BoundExpr, BoundFactor, BoundProd, Int};

/// Returns the values of the expression on the selected rows of the block. The selection vector counts from 0, and its
/// order is kept; `None` is NULL. An extra column without a NULL is not copied: its values are read in the block when
/// they are asked for. For another expression, allocates memory for each node if the scratch has no free vector.
pub fn values<'a>(
    block: &'a Block,
    e: &BoundExpr,
    picked: &'a [u32],
    scratch: &mut Scratch,
) -> Result<ValueList<'a>, Memory>
    requires there { All (λ place. place < length block.now.objects) picked.now }
    requires sound { IsTrue
        (is_sound_expr (has_col (FIRST_COLUMNS + block.now.width) false) e.now) }
    ensures { IfOk result (λ found. found
        ≡ map (λ o. value_of e.now (row o)) (objects_at block.now.objects picked.now)) }
{
    match whole_column(block, e) {
        Some(column) => Ok(ValueList::picked(PickedColumn::new(column, picked))),
        None => listed_values(block, e, picked, scratch),
    }
}

/// Returns the values of the expression on the selected rows, each materialised in a list: for values that are read one
/// by one, with much other work in between. Allocates memory for each node of the expression if the scratch has no free
/// vector.
pub fn listed_values<'a>(
    block: &'a Block,
    e: &BoundExpr,
    picked: &'a [u32],
    scratch: &mut Scratch,
) -> Result<ValueList<'a>, Memory>
    requires there { All (λ place. place < length block.now.objects) picked.now }
    requires sound { IsTrue
        (is_sound_expr (has_col (FIRST_COLUMNS + block.now.width) false) e.now) }
    ensures { IfOk result (λ found. found
        ≡ map (λ o. value_of e.now (row o)) (objects_at block.now.objects picked.now)) }
{
    let _ = block.len();
    let rows = Picked::new(block, picked);
    let lane = listed_sum(e, &rows, scratch)?;
    Ok(ValueList::of(lane))
}

// Returns the column vector of a sum, with each number materialised in a list.
fn listed_sum(e: &BoundExpr, rows: &Picked<'_>, scratch: &mut Scratch) -> Result<Lane, Memory>
    requires rows { All IsRow rows.now.objects }
    requires sound { IsSoundFor rows.now (term_of e.now) }
    ensures { IfOk result (IsLane rows.now.objects (term_of e.now)) }
{
    let lane = sum(e, rows, scratch)?;
    lane.listed(scratch)
}

/// Returns the column vector of a sum, from the left.
#[cycle(worth)]
pub(crate) fn sum(e: &BoundExpr, rows: &Picked<'_>, scratch: &mut Scratch) -> Result<Lane, Memory>
    requires rows { All IsRow rows.now.objects }
    requires sound { IsSoundFor rows.now (term_of e.now) }
    ensures { IfOk result (IsLane rows.now.objects (term_of e.now)) }
{
    let mut lane = product(&e.first, rows, scratch)?;
    let rest = e.rest.as_slice();
    for next in rest {
        let part = product(&next.prod, rows, scratch)?;
        lane = added(lane, next.minus, part, scratch)?;
    }
    Ok(lane)
}

// Returns the column vector of a product, from the left.
#[cycle(worth)]
fn product(p: &BoundProd, rows: &Picked<'_>, scratch: &mut Scratch) -> Result<Lane, Memory>
    requires rows { All IsRow rows.now.objects }
    requires sound { IsSoundFor rows.now (term_of_prod p.now) }
    ensures { IfOk result (IsLane rows.now.objects (term_of_prod p.now)) }
{
    let mut lane = factor(&p.first, rows, scratch)?;
    let rest = p.rest.as_slice();
    for next in rest {
        let part = factor(next, rows, scratch)?;
        lane = multiplied(lane, part, scratch)?;
    }
    Ok(lane)
}

// Returns the column vector of a factor.
#[cycle(worth)]
fn factor(f: &BoundFactor, rows: &Picked<'_>, scratch: &mut Scratch) -> Result<Lane, Memory>
    requires rows { All IsRow rows.now.objects }
    requires sound { IsSoundFor rows.now (term_of_factor f.now) }
    ensures { IfOk result (IsLane rows.now.objects (term_of_factor f.now)) }
{
    let lane = atom(&f.atom, rows, scratch)?;
    signed(f.minus, lane, scratch)
}

// Returns the column vector of an atom.
#[cycle(worth)]
fn atom(a: &BoundAtom, rows: &Picked<'_>, scratch: &mut Scratch) -> Result<Lane, Memory>
    requires rows { All IsRow rows.now.objects }
    requires sound { IsSoundFor rows.now (term_of_atom a.now) }
    ensures { IfOk result (IsLane rows.now.objects (term_of_atom a.now)) }
{
    match a {
        BoundAtom::Int(n) => int(n, rows, scratch),
        BoundAtom::Col(col) => column(col, rows, scratch),
        BoundAtom::Bracket(e) => sum(e.get(), rows, scratch),
    }
}

// Returns the column vector of an int.
fn int(n: &Int, rows: &Picked<'_>, scratch: &mut Scratch) -> Result<Lane, Memory>
    ensures { IfOk result (IsLane rows.now.objects (Number n.now)) }
{
    literal(n.get(), rows.len(), scratch)
}

// Returns the column vector of a column.
fn column(col: &BoundCol, rows: &Picked<'_>, scratch: &mut Scratch) -> Result<Lane, Memory>
    requires { IsSoundFor rows.now (Column col.now) }
    ensures { IfOk result (IsLane rows.now.objects (Column col.now)) }
{
    rows.read(col.col, scratch)
}

// Returns the column vector, or with `minus` its negation.
fn signed(minus: bool, lane: Lane, scratch: &mut Scratch) -> Result<Lane, Memory>
    requires { IsSmall lane }
    ensures { IfOk result (IsSigned minus lane) }
{
    if !minus {
        return Ok(lane);
    }
    let bound = lane.bound;
    let zero = literal(0, lane.known.len(), scratch)?;
    lanes_joined(&Less, zero, lane, bound, scratch)
}

// Returns the sum of the two, or with `minus` their difference.
fn added(left: Lane, minus: bool, right: Lane, scratch: &mut Scratch) -> Result<Lane, Memory>
    requires can { CanJoin (with_sign minus) (left.bound + right.bound)
        (numbers_of left.numbers) (numbers_of right.numbers) }
    requires masks { length right.known.items ≡ length left.known.items }
    ensures { IfOk result (AreLanesJoined (with_sign minus) (left.bound + right.bound) left right) }
{
    let bound = left.bound + right.bound;
    if minus {
        lanes_joined(&Less, left, right, bound, scratch)
    } else {
        lanes_joined(&Plus, left, right, bound, scratch)
    }
}

// Returns the product of the two.
fn multiplied(left: Lane, right: Lane, scratch: &mut Scratch) -> Result<Lane, Memory>
    requires can { CanJoin (λ a b. a *ℤ b) (left.bound * right.bound)
        (numbers_of left.numbers) (numbers_of right.numbers) }
    requires masks { length right.known.items ≡ length left.known.items }
    ensures { IfOk result (AreLanesJoined (λ a b. a *ℤ b) (left.bound * right.bound) left right) }
{
    let bound = left.bound * right.bound;
    lanes_joined(&Times, left, right, bound, scratch)
}
