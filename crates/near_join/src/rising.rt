//! Whether the conditions of a query hold only for pairs whose first id is the lower one, as `a.objectId < b.objectId`
//! does. Then two rows are one pair and not two, no row is paired with itself, and the ids decide which row is first.

ghost use Rattle.std.specs.Prelude.{◌≡◌, IsTrue};
ghost use Rattle.value_rules.specs.Formulas.{Compares, formula_of, formula_of_pred};
ghost use Rattle.value_rules.specs.Terms.{Column, term_of, term_of_atom, term_of_factor, term_of_prod};
ghost use Rattle.near_join.specs.Rising.{Rises, RisesBy, id_of};

use sql_bound::{BoundAtom, BoundCond, BoundExpr, BoundFactor, BoundPred, BoundProd, Cmp};

/// Returns true only if one of the conditions is, at its top level, that the first id is the lower one.
pub(crate) fn rises(conds: &[BoundCond]) -> bool
    ensures { IsTrue result → Rises conds.now }
{
    for c in conds {
        if is_rising(c) {
            return true;
        }
    }
    false
}

/// Returns true only if the condition is that the first id is the lower one.
pub(crate) fn is_rising(c: &BoundCond) -> bool
    ensures { IsTrue result → RisesBy (formula_of c.now) }
{
    !c.not && is_order_of_ids(&c.pred)
}

/// Returns true only if the test is that the first id is the lower one.
fn is_order_of_ids(pred: &BoundPred) -> bool
    ensures { IsTrue result → RisesBy (formula_of_pred pred.now) }
{
    match pred {
        BoundPred::Compare { left, op, right } => is_upwards(left, *op, right),
        _ => false,
    }
}

/// Returns true only if the comparison is that the first id is the lower one, written in either direction.
fn is_upwards(left: &BoundExpr, op: Cmp, right: &BoundExpr) -> bool
    ensures { IsTrue result → RisesBy (Compares op (term_of left.now) (term_of right.now)) }
{
    match op {
        Cmp::Less => is_id(left, false) && is_id(right, true),
        Cmp::More => is_id(left, true) && is_id(right, false),
        _ => false,
    }
}

/// Returns true only if the expression is the id of one row of a pair and nothing else: with `second` of the second
/// row, otherwise of the first.
pub(crate) fn is_id(e: &BoundExpr, second: bool) -> bool
    ensures { IsTrue result → term_of e.now ≡ Column (id_of second) }
{
    e.rest.is_empty() && is_id_product(&e.first, second)
}

/// Returns true only if the product is that id alone.
fn is_id_product(p: &BoundProd, second: bool) -> bool
    ensures { IsTrue result → term_of_prod p.now ≡ Column (id_of second) }
{
    p.rest.is_empty() && is_id_factor(&p.first, second)
}

/// Returns true only if the factor is that id alone.
fn is_id_factor(f: &BoundFactor, second: bool) -> bool
    ensures { IsTrue result → term_of_factor f.now ≡ Column (id_of second) }
{
    !f.minus && is_id_atom(&f.atom, second)
}

/// Returns true only if the atom is that id alone.
fn is_id_atom(a: &BoundAtom, second: bool) -> bool
    ensures { IsTrue result → term_of_atom a.now ≡ Column (id_of second) }
{
    match a {
        BoundAtom::Col(col) => col.second == second && col.col == 0,
        _ => false,
    }
}
